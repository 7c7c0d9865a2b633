#![tactic(auto)]
// Prefix capabilities: the keys that one covers, and the ones that lie within it.
ghost use Rattle.std.specs.Prelude.{◌≡◌, [], ◌∷◌, ◌-◌, ◌*◌, ◌/◌, ◌^◌, ◌≤◌, eqb, length};
ghost use Rattle.rules.specs.Words.{key_bytes, word_bytes, num};
ghost use Rattle.rules.specs.Capabilities.{prefix, first_bits};
ghost use Rattle.rules.specs.Capabilities.{covers_key, within_prefix};
ghost use Rattle.prefixes.specs.Prefixes.{KeyPart};

// Whether the first s bits of two keys are equal: the whole bytes, and then what a mask leaves of the last partial one.
pub fn same_first_bits(s: usize, a: &[u8; rules::KEY_BYTES], b: &[u8; rules::KEY_BYTES]) -> bool
    requires { s ≤ 8 * key_bytes }
    ensures { result ≡ eqb (first_bits s (num a.now)) (first_bits s (num b.now)) }
{
    let whole = s / 8;
    let part = s % 8;
    a[..whole] == b[..whole] && (part == 0 || same_part(part, a[whole], b[whole]))
}

// Whether the first `part` bits of two bytes are equal.
fn same_part(part: usize, x: u8, y: u8) -> bool
    requires { (1 ≤ part) × (part ≤ 7) }
    ensures { result ≡ eqb (x / 2 ^ (8 - part)) (y / 2 ^ (8 - part)) }
{
    let mask = !(0xffu8 >> part);
    x & mask == y & mask
}

// The prefix of a prefix capability, byte 0 of its word.
pub fn prefix_of(capability: &[u8; rules::WORD_BYTES]) -> usize
    ensures { result ≡ prefix (num capability.now ∷ []) }
{
    usize::from(capability[0])
}

// The last 24 bytes of a word: the base key of a prefix capability, or the key in a key word. (`key_words::key_part` lends the
// same bytes, and promises their number; a caller cannot tell bytes from a number, so here the bytes themselves are promised.)
pub fn key_part(word: &[u8; rules::WORD_BYTES]) -> &[u8; rules::KEY_BYTES]
    ensures { KeyPart word.now result.now }
{
    word[key_words::KEY_AT..].as_array().unwrap()
}

// Whether a prefix capability covers a key: the key's first bits are those of the base.
pub fn covers_key(capability: &[u8; rules::WORD_BYTES], key: &[u8; rules::KEY_BYTES]) -> bool
    requires { prefix (num capability.now ∷ []) ≤ 8 * key_bytes }
    ensures { result ≡ covers_key (num capability.now ∷ []) (num key.now) }
{
    same_first_bits(prefix_of(capability), key, key_part(capability))
}

// Whether b lies within a: its prefix is at least as long, and the bases are equal in the bits of a's prefix.
pub fn within_prefix(b: &[u8; rules::WORD_BYTES], a: &[u8; rules::WORD_BYTES]) -> bool
    requires { prefix (num a.now ∷ []) ≤ 8 * key_bytes }
    ensures { result ≡ within_prefix (num b.now ∷ []) (num a.now ∷ []) }
{
    let a_prefix = prefix_of(a);
    let b_prefix = prefix_of(b);
    a_prefix <= b_prefix && same_first_bits(a_prefix, key_part(b), key_part(a))
}
