#![tactic(auto)]
// How many records a table needs once a key is set.
ghost use Rattle.std.specs.Prelude.{◌≡◌, length};
ghost use Rattle.rules.specs.Words.{num};
ghost use Rattle.rules.specs.Table.{put, store};

use records::Records;

// How many records are occupied once a key is set to a value.
pub fn needed(
    table: Records,
    key: &[u8; rules::WORD_BYTES],
    value: &[u8; rules::WORD_BYTES],
) -> usize
    ensures { result ≡ length (put (store table.entry.bytes.now) (num key.now) (num value.now)) }
{
    let removes = words::is_zero(value);
    match (table.find(key), removes) {
        (Ok(_), true) => table.used - 1,
        (Err(_), false) => table.used + 1,
        _ => table.used,
    }
}
