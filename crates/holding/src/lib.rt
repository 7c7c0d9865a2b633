#![tactic(auto)]
// The capabilities that a procedure holds, read from the table.
ghost use Rattle.std.specs.Prelude.{◌≡◌, ◌*◌, min, length};
ghost use Rattle.rules.specs.Words.{word_bytes, num};
ghost use Rattle.rules.specs.Table.{get, store};
ghost use Rattle.rules.specs.KernelStorage.{count_slot};
ghost use Rattle.rules.specs.Capabilities.{greatest_words};
ghost use Rattle.words.specs.Words.{small_limit};
ghost use Rattle.holding.specs.Holding.{CountOf, WordsRead, no_capability, CapabilityOf};

pub use records::Records;

// Room for a capability of any type.
pub const CAPABILITY_BYTES: usize = rules::WORD_BYTES * rules::GREATEST_WORDS;

// How many capabilities of a type a procedure holds, and the place of that count: how many keys are below its key.
#[derive(Clone, Copy, Debug, PartialEq, Eq)]
pub struct Count {
    pub number: usize,
    pub place: usize,
}

// The count of a type, or what `small` makes of one that is not small.
pub fn read_count(table: Records, procedure: &[u8; rules::KEY_BYTES], kind: rules::Kind) -> Count
    ensures { CountOf (store table.entry.bytes.now) (num procedure.now) kind.0 result }
{
    let slot = slots::count_slot(procedure, kind);
    match table.find(&slot) {
        Ok(place) => {
            let value_at = rules::RECORD_SIZE * place + rules::WORD_BYTES;
            let number = words::small(moves::word_at(table.bytes, value_at));
            Count { number, place }
        }
        Err(place) => Count { number: 0, place },
    }
}

// The number alone.
pub fn count_of(table: Records, procedure: &[u8; rules::KEY_BYTES], kind: rules::Kind) -> usize
    ensures { result ≡ min (get (store table.entry.bytes.now) (count_slot (num procedure.now) kind.0)) small_limit }
{
    read_count(table, procedure, kind).number
}

// The words of the i-th capability of a type that a procedure holds, into room for two. Only those that the type has are looked
// up, at a guess first; the bytes behind them stay. The result is a guess for the next capability's. The room is a part of the
// copies of many, and so a slice.
pub fn read_words(
    to: &mut [u8],
    table: Records,
    procedure: &[u8; rules::KEY_BYTES],
    kind: rules::Kind,
    i: u8,
    guess: usize,
) -> usize
    requires { length to.old ≡ word_bytes * greatest_words }
    ensures { WordsRead (store table.entry.bytes.now) (num procedure.now) kind.0 i guess to.old to.new result }
{
    let count = kind.words();
    if count == 0 {
        return guess;
    }
    let first = slots::word_slot(procedure, kind, i, 0);
    let next = records::look_near(&mut to[0..rules::WORD_BYTES], table, guess, &first);
    if count == 1 {
        return next;
    }
    let second = slots::word_slot(procedure, kind, i, 1);
    let back = &mut to[rules::WORD_BYTES..CAPABILITY_BYTES];
    records::look_near(back, table, next, &second)
}

// The i-th capability of a type that a procedure holds: its words come first, then zeros.
pub fn capability(
    table: Records,
    procedure: &[u8; rules::KEY_BYTES],
    kind: rules::Kind,
    i: u8,
) -> [u8; CAPABILITY_BYTES]
    ensures { CapabilityOf (store table.entry.bytes.now) (num procedure.now) kind.0 i no_capability result }
{
    let mut r = [0u8; CAPABILITY_BYTES];
    read_words(&mut r, table, procedure, kind, i, table.used);
    r
}
