#![tactic(auto)]
// A record of a procedure behind its index: the number of its capabilities of a type, or a word of one of them.
ghost use Rattle.std.specs.Prelude.{◌≡◌, ◌%◌, ◌^◌, min, eqb, length};
ghost use Rattle.rules.specs.Words.{word_bytes, num};
ghost use Rattle.rules.specs.Table.{◌holds◌};
ghost use Rattle.rules.specs.Source.{OfType};
ghost use Rattle.words.specs.Words.{small_limit};
ghost use Rattle.walks.specs.Walks.{pick, word_row, kind_row, later_row};

// Whether a key's last two bytes are zero: it is then that of a count.
fn is_count(key: &[u8; rules::WORD_BYTES]) -> bool
    ensures { result ≡ eqb (num key.now % 256 ^ 2) 0 }
{
    keys::end_second(key) == 0 && keys::end_third(key) == 0
}

// Whether a record is a word of one of the `count` capabilities of the type before it.
fn word_row(
    kind: rules::Kind,
    before: u8,
    count: usize,
    key: &[u8; rules::WORD_BYTES],
    value: &[u8; rules::WORD_BYTES],
) -> bool
    ensures { OfType kind.0 (λ k. result ≡ word_row k before count (num key.now holds num value.now)) }
{
    if before != keys::end_first(key) {
        return false;
    }
    let i = keys::end_second(key);
    if i < 1 {
        return false;
    }
    if count < usize::from(i) {
        return false;
    }
    usize::from(keys::end_third(key)) < kind.words() && rights::prefix_in_range(kind, value)
}

// Whether a record of a type is one that a procedure may have behind a record of the type `before`, of which `count` are counted.
fn kind_row(
    kind: rules::Kind,
    before: u8,
    count: usize,
    key: &[u8; rules::WORD_BYTES],
    value: &[u8; rules::WORD_BYTES],
) -> bool
    ensures { OfType kind.0 (λ k. result ≡ kind_row k before count (num key.now holds num value.now)) }
{
    if is_count(key) {
        words::small(value) <= rules::GREATEST_COUNT
    } else {
        word_row(kind, before, count, key, value)
    }
}

// The same of a record whose type its key names.
pub fn later_row(
    before: u8,
    count: usize,
    key: &[u8; rules::WORD_BYTES],
    value: &[u8; rules::WORD_BYTES],
) -> bool
    ensures { result ≡ later_row before count (num key.now holds num value.now) }
{
    let Ok(kind) = rules::Kind::try_from(keys::end_first(key)) else {
        return false;
    };
    kind_row(kind, before, count, key, value)
}

// How many capabilities are counted behind a record with the value `stored`, where `count` were before it.
pub fn count_after(
    count: usize,
    key: &[u8; rules::WORD_BYTES],
    stored: &[u8; rules::WORD_BYTES],
) -> usize
    ensures { result ≡ pick (eqb (num key.now % 256 ^ 2) 0) (min (num stored.now) small_limit) count }
{
    if is_count(key) {
        words::small(stored)
    } else {
        count
    }
}
