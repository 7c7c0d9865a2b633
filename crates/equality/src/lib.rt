#![tactic(auto)]
// Whether byte strings are the same, and whether one is zero. Those of eight bytes or more are read by limbs.
ghost use Rattle.std.specs.Prelude.{◌≡◌, eqb, length};
ghost use Rattle.rules.specs.Words.{num};

// Whether two byte strings of one length are the same. The last limb may overlap the one before it, so that no byte is left
// over. (By `a == b`, and `is_zero` by `all`, a call on a table of many procedures takes 13.5 times one read, where 12 is the
// goal.) In line, since a call would cost more than it does: where the length is known, only what it needs is left.
#[inline(always)]
pub fn same(a: &[u8], b: &[u8]) -> bool
    requires { length a.now ≡ length b.now }
    ensures { result ≡ eqb (num a.now) (num b.now) }
{
    if a.len() < limbs::LONG_LIMB_BYTES {
        return a == b;
    }
    let last = a.len() - limbs::LONG_LIMB_BYTES;
    for i in 0..last.div_ceil(limbs::LONG_LIMB_BYTES) {
        let at = limbs::LONG_LIMB_BYTES * i;
        if limbs::long_limb(a, at) != limbs::long_limb(b, at) {
            return false;
        }
    }
    limbs::long_limb(a, last) == limbs::long_limb(b, last)
}

// Whether every byte is zero. Most words are small numbers, so the last limb is judged first; it may overlap the one before it.
// (`all` over the bytes takes 8 times as long, or more, on words.) In line as `same` is.
#[inline(always)]
pub fn is_zero(bytes: &[u8]) -> bool
    ensures { result ≡ eqb (num bytes.now) 0 }
{
    if bytes.len() < limbs::LONG_LIMB_BYTES {
        return bytes.iter().all(|byte| *byte == 0);
    }
    let last = bytes.len() - limbs::LONG_LIMB_BYTES;
    if limbs::long_limb(bytes, last) != 0 {
        return false;
    }
    for i in 0..last.div_ceil(limbs::LONG_LIMB_BYTES) {
        if limbs::long_limb(bytes, limbs::LONG_LIMB_BYTES * i) != 0 {
            return false;
        }
    }
    true
}

// A long byte string is judged in blocks of 64 bytes.
const BLOCK_BYTES: usize = 8 * limbs::LONG_LIMB_BYTES;

// Whether every byte of a long string is zero. The blocks are judged from the end: a fault there is found at once.
pub fn is_blank(bytes: &[u8]) -> bool
    ensures { result ≡ eqb (num bytes.now) 0 }
{
    let (blocks, rest) = bytes.as_chunks::<BLOCK_BYTES>();
    is_zero(rest) && blocks.iter().rev().all(|block| *block == [0; BLOCK_BYTES])
}
