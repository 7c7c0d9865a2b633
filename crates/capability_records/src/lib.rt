#![tactic(auto)]
// The requested capabilities of one type, stored for a procedure.
ghost use Rattle.rules.specs.Words.{num};
ghost use Rattle.capability_records.specs.CapabilityRecords.{WordsNeeds, WordsStored, KindNeeds, KindStored};

use rules::Kind;
use storing::Table;

// The words of the i-th capability of a type, at their slots.
fn put_words(
    table: &mut Table,
    procedure: &[u8; rules::KEY_BYTES],
    kind: Kind,
    i: u8,
    capability: &[u8],
)
    requires { WordsNeeds table.old.bytes.now (num procedure.now) kind.0 i capability.now }
    ensures { WordsStored table.old table.new (num procedure.now) kind.0 i capability.now }
{
    for k in 0..kind.words() {
        // A cast: k is less than the number of words, which is at most two.
        let slot = slots::word_slot(procedure, kind, i, k as u8);
        let word = moves::word_at(capability, rules::WORD_BYTES * k);
        table.put(&slot, word);
    }
}

// The requested capabilities of a type, `count` in all, in the order requested. The series is read up to the last of them.
pub fn put_kind(
    table: &mut Table,
    procedure: &[u8; rules::KEY_BYTES],
    kind: Kind,
    count: usize,
    d: &[u8],
)
    requires { KindNeeds table.old.bytes.now (num procedure.now) kind.0 count d.now }
    ensures { KindStored table.old table.new (num procedure.now) kind.0 d.now }
{
    let mut i = 0;
    // Counted by hand: `filter`, `take` and `enumerate` before the loop would be no plainer.
    for request in series::requests(d) {
        if i == count {
            break;
        }
        if request.kind == kind {
            i += 1;
            // A cast: `count` is at most 255.
            put_words(table, procedure, kind, i as u8, request.words);
        }
    }
}
