#![tactic(auto)]
// The words of a message's data, `d`, read in the data as it was lent.
ghost use Rattle.std.specs.Prelude.{◌≡◌, false, ◌+◌, ◌*◌, ◌-◌, ◌^◌, ◌≤◌, leb, length};
ghost use Rattle.rules.specs.Words.{key_bytes, word_bytes, word_at};
ghost use Rattle.rules.specs.Source.{minimum_of, OfType};
ghost use Rattle.rules.specs.Messages.{index_word, key_word, address_word, write_address, write_value, key_too_long, leading_bytes};
ghost use Rattle.words.specs.Words.{Holds};

use rules::Kind;

// Where in the data the words stand.
const INDEX_AT: usize = 0;

const KEY_AT: usize = rules::WORD_BYTES;

const ADDRESS_AT: usize = 2 * rules::WORD_BYTES;

const WRITE_ADDRESS_AT: usize = rules::WORD_BYTES;

const WRITE_VALUE_AT: usize = 2 * rules::WORD_BYTES;

// Each word of the documents has a reader of its name; they differ in the offset alone.

// The first word of every message's data: the capability index.
pub fn index(d: &[u8]) -> &[u8; rules::WORD_BYTES]
    requires { word_bytes ≤ length d.now }
    ensures { Holds word_bytes result.now (index_word d.now) }
{
    moves::word_at(d, INDEX_AT)
}

// The second word of the data of Call, Register, Delete and Set Entry: the key, with the bytes before it.
pub fn key_word(d: &[u8]) -> &[u8; rules::WORD_BYTES]
    requires { 2 * word_bytes ≤ length d.now }
    ensures { Holds word_bytes result.now (key_word d.now) }
{
    moves::word_at(d, KEY_AT)
}

// The third word of Register's data: the address, with the bytes before it.
pub fn address_word(d: &[u8]) -> &[u8; rules::WORD_BYTES]
    requires { 3 * word_bytes ≤ length d.now }
    ensures { Holds word_bytes result.now (address_word d.now) }
{
    moves::word_at(d, ADDRESS_AT)
}

// The second word of Write's data: the address to write at.
pub fn write_address(d: &[u8]) -> &[u8; rules::WORD_BYTES]
    requires { 2 * word_bytes ≤ length d.now }
    ensures { Holds word_bytes result.now (write_address d.now) }
{
    moves::word_at(d, WRITE_ADDRESS_AT)
}

// The third word of Write's data: the value to write.
pub fn write_value(d: &[u8]) -> &[u8; rules::WORD_BYTES]
    requires { 3 * word_bytes ≤ length d.now }
    ensures { Holds word_bytes result.now (write_value d.now) }
{
    moves::word_at(d, WRITE_VALUE_AT)
}

// Whether one of the first n bytes of the word at an offset is not zero: then the word is too large for its other bytes.
fn leading_at(d: &[u8], at: usize, n: usize) -> bool
    requires { (at + word_bytes ≤ length d.now) × (n ≤ word_bytes) }
    ensures { result ≡ leb (256 ^ (word_bytes - n)) (word_at d.now at) }
{
    !words::is_zero(&d[at..at + n])
}

// Whether the key word, or Register's address word, has a byte that is not zero in front of the key or address.
pub fn leading(kind: Kind, d: &[u8]) -> bool
    requires { minimum_of kind.0 ≤ length d.now }
    ensures { OfType kind.0 (λ k. result ≡ leading_bytes k d.now) }
{
    match kind {
        Kind::CALL | Kind::DELETE | Kind::SET_ENTRY => leading_at(d, KEY_AT, key_words::KEY_AT),
        Kind::REGISTER => {
            leading_at(d, KEY_AT, key_words::KEY_AT)
                || leading_at(d, ADDRESS_AT, key_words::ADDRESS_AT)
        }
        _ => false,
    }
}

// The key of a key word with no leading bytes.
pub fn key_of(d: &[u8]) -> &[u8; rules::KEY_BYTES]
    requires { (2 * word_bytes ≤ length d.now) × (key_too_long d.now ≡ false) }
    ensures { Holds key_bytes result.now (key_word d.now) }
{
    key_words::key_part(key_word(d))
}
