#![tactic(auto)]
// The record table read: what a key holds, and how many keys are at most a given one.
ghost use Rattle.std.specs.Prelude.{◌≡◌, ◌+◌, length};
ghost use Rattle.rules.specs.Words.{word_bytes, num, word};
ghost use Rattle.rules.specs.Table.{get, store};
ghost use Rattle.finding.specs.Finding.{keys_below};

pub use finding::Records;

// How many records have at most the given key.
pub fn keys_through(table: Records, key: &[u8; rules::WORD_BYTES]) -> usize
    ensures { result ≡ keys_below (store table.entry.bytes.now) (num key.now + 1) }
{
    match table.find(key) {
        Ok(i) => i + 1,
        Err(i) => i,
    }
}

// What a key holds.
pub fn look(table: Records, key: &[u8; rules::WORD_BYTES]) -> [u8; rules::WORD_BYTES]
    ensures { result ≡ word (get (store table.entry.bytes.now) (num key.now)) }
{
    match table.find(key) {
        Ok(i) => *moves::word_at(table.bytes, rules::RECORD_SIZE * i + rules::WORD_BYTES),
        Err(_) => [0; rules::WORD_BYTES],
    }
}

// What a key holds, into a word. The result is how many records have at most the key: a guess for the key that is looked up
// next, if that one follows. A guess that is right spares the search, and any other does no harm. The word is a part of a
// longer copy, and so a slice.
pub fn look_near(
    to: &mut [u8],
    table: Records,
    guess: usize,
    key: &[u8; rules::WORD_BYTES],
) -> usize
    requires { length to.old ≡ word_bytes }
    ensures { (to.new ≡ word (get (store table.entry.bytes.now) (num key.now))) × (result ≡ keys_below (store table.entry.bytes.now) (num key.now + 1)) }
{
    match table.find_near(guess, key) {
        Ok(i) => {
            let value_at = rules::RECORD_SIZE * i + rules::WORD_BYTES;
            to.copy_from_slice(moves::word_at(table.bytes, value_at));
            i + 1
        }
        Err(i) => {
            to.fill(0);
            i
        }
    }
}
