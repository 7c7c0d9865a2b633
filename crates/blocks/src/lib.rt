#![tactic(auto)]
// The walk over the records of the procedures: each one's address and index, then for each type its count and its words.
ghost use Rattle.std.specs.Prelude.{◌≡◌, ◌+◌, ◌*◌, ◌-◌, ◌%◌, ◌^◌, ◌≤◌, min, eqb};
ghost use Rattle.rules.specs.Words.{word_bytes, word_at};
ghost use Rattle.rules.specs.Table.{record_size, store};
ghost use Rattle.words.specs.Words.{small_limit};
ghost use Rattle.keys.specs.Keys.{end_first};
ghost use Rattle.finding.specs.Finding.{keys_below};
ghost use Rattle.walks.specs.Walks.{pick, first_slot, later_row, blocks_form};
ghost use Rattle.lists.specs.Lists.{record_at, Laid};
ghost use Rattle.blocks.specs.Blocks.{HasRecord, continues_at};

use finding::Records;

// How many records stand before kernel storage.
fn first_record(table: Records) -> usize
    ensures { result ≡ keys_below (store table.entry.bytes.now) first_slot }
{
    table.keys_below(&slots::address_slot(&[0u8; rules::KEY_BYTES]))
}

// Whether the i-th record is of the same procedure as the record before it; the first has none before it.
fn continues(t: &[u8], first: usize, i: usize) -> bool
    requires { HasRecord t.now i }
    ensures { result ≡ continues_at t.now first i }
{
    first < i
        && heads::same_front(
            moves::word_at(t, rules::RECORD_SIZE * i),
            moves::word_at(t, rules::RECORD_SIZE * (i - 1)),
        )
}

// Whether the i-th record may stand behind the one before it, of the same procedure, where `count` of that one's type are
// counted.
fn later(t: &[u8], i: usize, count: usize) -> bool
    requires has_record { HasRecord t.now i }
    requires le_i { 1 ≤ i }
    ensures { result ≡ later_row (end_first (word_at t.now (record_size * (i - 1)))) count (record_at t.now i) }
{
    let before = keys::end_first(moves::word_at(t, rules::RECORD_SIZE * (i - 1)));
    let key = moves::word_at(t, rules::RECORD_SIZE * i);
    let value = moves::word_at(t, rules::RECORD_SIZE * i + rules::WORD_BYTES);
    rows::later_row(before, count, key, value)
}

// How many capabilities are counted behind the i-th record, where `count` were before it.
fn counted(t: &[u8], i: usize, count: usize) -> usize
    requires { HasRecord t.now i }
    ensures { result ≡ pick (eqb (word_at t.now (record_size * i) % 256 ^ 2) 0) (min (word_at t.now (record_size * i + word_bytes)) small_limit) count }
{
    let key = moves::word_at(t, rules::RECORD_SIZE * i);
    let value = moves::word_at(t, rules::RECORD_SIZE * i + rules::WORD_BYTES);
    rows::count_after(count, key, value)
}

// Whether the records of the procedures are as they have to be, and there are as many procedures as places.
pub fn blocks_form(table: Records, list: usize, places: usize) -> bool
    requires { Laid table list places }
    ensures { result ≡ blocks_form (store table.entry.bytes.now) }
{
    let t = table.bytes;
    let first = first_record(table);
    let mut i = first;
    let mut blocks = 0;
    let mut count = 0;
    // A loop by hand: a step passes one record, or the two that begin a procedure.
    while i < list {
        if continues(t, first, i) {
            if !later(t, i, count) {
                return false;
            }
            count = counted(t, i, count);
            i += 1;
        } else {
            if !heads::head_rows(table, list, places, i) {
                return false;
            }
            blocks += 1;
            count = 0;
            i += 2;
        }
    }
    blocks == places
}
