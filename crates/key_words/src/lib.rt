#![tactic(auto)]
// Keys and addresses in words.
ghost use Rattle.std.specs.Prelude.{◌≡◌, ◌&&◌, ◌-◌, ◌^◌, ◌≤◌, eqb, leb, ltb, length};
ghost use Rattle.rules.specs.Words.{word_bytes, key_bytes, num};
ghost use Rattle.rules.specs.Sound.{is_key, is_address};
ghost use Rattle.key_words.specs.KeyWords.{KeyPart};

// Where in a word a key begins, and an address: so many bytes before it are zero.
pub const KEY_AT: usize = rules::WORD_BYTES - rules::KEY_BYTES;

pub const ADDRESS_AT: usize = rules::WORD_BYTES - rules::ADDRESS_BYTES;

// Whether a word is not zero and its first bytes, `leading` of them, are.
fn stands_right(word: &[u8; rules::WORD_BYTES], leading: usize) -> bool
    requires { leading ≤ word_bytes }
    ensures { result ≡ (leb 1 (num word.now) && ltb (num word.now) (256 ^ (word_bytes - leading))) }
{
    words::is_zero(&word[..leading]) && !words::is_zero(word)
}

// Whether a word is a non-zero 24-byte key. (The rules' name, and one call; so is the next.)
pub fn is_key(word: &[u8; rules::WORD_BYTES]) -> bool
    ensures { result ≡ is_key (num word.now) }
{
    stands_right(word, KEY_AT)
}

// Whether a word is a non-zero 20-byte address.
pub fn is_address(word: &[u8; rules::WORD_BYTES]) -> bool
    ensures { result ≡ is_address (num word.now) }
{
    stands_right(word, ADDRESS_AT)
}

// The last 24 bytes of a word.
pub fn key_part(word: &[u8; rules::WORD_BYTES]) -> &[u8; rules::KEY_BYTES]
    ensures { KeyPart (num word.now) result.now }
{
    word[KEY_AT..].as_array().unwrap()
}

// Whether a word stands for a key.
pub fn same_key(word: &[u8; rules::WORD_BYTES], key: &[u8; rules::KEY_BYTES]) -> bool
    ensures { result ≡ eqb (num word.now) (num key.now) }
{
    words::is_zero(&word[..KEY_AT]) && words::same(key_part(word), key)
}
