#![tactic(auto)]
// The two records that begin a procedure: its address, and its index, which names the place that holds the procedure's key.
ghost use Rattle.std.specs.Prelude.{◌≡◌, ◌&&◌, suc, ◌+◌, ◌%◌, ◌^◌, ◌<◌, eqb, length};
ghost use Rattle.rules.specs.Words.{word_bytes, key_bytes, num};
ghost use Rattle.rules.specs.Table.{store};
ghost use Rattle.walks.specs.Walks.{front_of, head_rows};
ghost use Rattle.heads.specs.Heads.{named};
ghost use Rattle.lists.specs.Lists.{record_at, Laid};

use finding::Records;

// Where the last byte of a key is.
const LAST: usize = rules::WORD_BYTES - 1;

// Whether two keys are the same but for their ends.
pub fn same_front(a: &[u8; rules::WORD_BYTES], b: &[u8; rules::WORD_BYTES]) -> bool
    ensures { result ≡ eqb (front_of (num a.now)) (front_of (num b.now)) }
{
    words::same(&a[..keys::END_AT], &b[..keys::END_AT])
}

// Whether a key ends with zeros and the other is the one behind it.
fn begin(key: &[u8; rules::WORD_BYTES], next: &[u8; rules::WORD_BYTES]) -> bool
    ensures { result ≡ (eqb (num key.now % 256 ^ 3) 0 && eqb (num next.now) (suc (num key.now))) }
{
    words::is_zero(&key[keys::END_AT..])
        && words::same(&next[..LAST], &key[..LAST])
        && next[LAST] == 1
}

// Whether an index names a place of the list, and a procedure's key stands there.
fn names(
    table: Records,
    list: usize,
    places: usize,
    index: &[u8; rules::WORD_BYTES],
    procedure: &[u8; rules::KEY_BYTES],
) -> bool
    requires { Laid table list places }
    ensures { result ≡ named table.entry.bytes.now (num index.now) (num procedure.now) }
{
    let place = words::small(index);
    if place < 1 || places < place {
        return false;
    }
    let there = moves::word_at(
        table.bytes,
        rules::RECORD_SIZE * (list + place) + rules::WORD_BYTES,
    );
    key_words::same_key(there, procedure)
}

// Whether the i-th record and the next begin a procedure.
pub fn head_rows(table: Records, list: usize, places: usize, i: usize) -> bool
    requires laid { Laid table list places }
    requires i_lt_list { i < list }
    ensures { result ≡ head_rows (store table.entry.bytes.now) (record_at table.entry.bytes.now i) (record_at table.entry.bytes.now (i + 1)) }
{
    let t = table.bytes;
    let key = moves::word_at(t, rules::RECORD_SIZE * i);
    let next = rules::RECORD_SIZE * (i + 1);
    begin(key, moves::word_at(t, next))
        && key_words::is_address(moves::word_at(t, rules::RECORD_SIZE * i + rules::WORD_BYTES))
        && names(
            table,
            list,
            places,
            moves::word_at(t, next + rules::WORD_BYTES),
            keys::middle_of(key),
        )
}
