#![tactic(auto)]
// Words: 32 bytes, most significant first. They are compared as whole numbers.
ghost use Rattle.std.specs.Prelude.{◌≡◌, min, eqb, leb, ltb};
ghost use Rattle.rules.specs.Words.{num};
ghost use Rattle.words.specs.Words.{small_limit};

pub use equality::{is_blank, is_zero, same};
pub use sums::sums_at_most;

// Whether two words are the same. (`==` of two arrays is compiled to a call, which in whole calls costs more than the limbs that
// `same` reads in line.)
pub fn same_word(a: &[u8; rules::WORD_BYTES], b: &[u8; rules::WORD_BYTES]) -> bool
    ensures { result ≡ eqb (num a.now) (num b.now) }
{
    equality::same(a, b)
}

// Whether a word is zero. (Not by `==` with zeros, for the same reason.)
pub fn is_zero_word(word: &[u8; rules::WORD_BYTES]) -> bool
    ensures { result ≡ eqb (num word.now) 0 }
{
    equality::is_zero(word)
}

// Where a word's last limb is.
const LAST_LIMB: usize = rules::WORD_BYTES - limbs::LIMB_BYTES;

// A word's limbs.
const LONG_LIMBS: usize = rules::WORD_BYTES / limbs::LONG_LIMB_BYTES;

// Whether word a is less than word b: the first of the four limbs that differs decides. (`a < b` of the slices takes 8 to 26
// times as long, `<` of two arrays of limbs two to four times.)
pub fn below(a: &[u8; rules::WORD_BYTES], b: &[u8; rules::WORD_BYTES]) -> bool
    ensures { result ≡ ltb (num a.now) (num b.now) }
{
    for i in 0..LONG_LIMBS {
        let at = limbs::LONG_LIMB_BYTES * i;
        let (x, y) = (limbs::long_limb(a, at), limbs::long_limb(b, at));
        if x != y {
            return x < y;
        }
    }
    false
}

// Whether word a is at most word b.
pub fn at_most(a: &[u8; rules::WORD_BYTES], b: &[u8; rules::WORD_BYTES]) -> bool
    ensures { result ≡ leb (num a.now) (num b.now) }
{
    !below(b, a)
}

// What `small` answers for a word that is not less than it. (A promise that callers stand on, and so no `Option`.)
pub const SMALL_LIMIT: usize = limbs::LIMB_BASE as usize;

// The number of a word, or 2^32 where it is not less: a count, an index or a length is judged as a whole word, never cut.
pub fn small(word: &[u8; rules::WORD_BYTES]) -> usize
    ensures { result ≡ min (num word.now) small_limit }
{
    if equality::is_zero(&word[0..LAST_LIMB]) {
        limbs::limb(word, LAST_LIMB) as usize
    } else {
        SMALL_LIMIT
    }
}
