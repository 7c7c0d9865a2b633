#![tactic(auto)]
// A word by its limbs, most significant first: eight of four bytes, or four of eight.
ghost use Rattle.std.specs.Prelude.{◌≡◌, ◌+◌, ◌≤◌, take, drop, length};
ghost use Rattle.limbs.specs.Limbs.{limb_bytes, long_limb_bytes, Limb, LongLimb};

// A word is added by its eight limbs of four bytes, so that a sum of limbs fits 64 bits.
pub const LIMB_BYTES: usize = 4;

// The numbers of four bytes are below this.
pub const LIMB_BASE: u64 = 4294967296;

// A word is compared by its four limbs of eight bytes.
pub const LONG_LIMB_BYTES: usize = 8;

// The number of the four bytes at an offset.
pub fn limb(bytes: &[u8], at: usize) -> u64
    requires { at + limb_bytes ≤ length bytes.now }
    ensures { Limb bytes.now at result }
{
    u64::from(u32::from_be_bytes(array_at(bytes, at)))
}

// The number of the eight bytes at an offset.
pub fn long_limb(bytes: &[u8], at: usize) -> u64
    requires { at + long_limb_bytes ≤ length bytes.now }
    ensures { LongLimb bytes.now at result }
{
    u64::from_be_bytes(array_at(bytes, at))
}

// The N bytes at an offset. (`from_be_bytes` is a method of each type and of no trait, so a limb's two sizes are two functions.)
fn array_at<const N: usize>(bytes: &[u8], at: usize) -> [u8; N]
    requires { at + N ≤ length bytes.now }
    ensures value { result ≡ take N (drop at bytes.now) }
    ensures len { length result ≡ N }
{
    *bytes[at..].first_chunk().unwrap()
}
