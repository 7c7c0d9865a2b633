#![tactic(auto)]
// Sums of words compared as whole numbers.
ghost use Rattle.std.specs.Prelude.{◌≡◌, ◌+◌, ◌<◌, ◌≤◌, leb};
ghost use Rattle.rules.specs.Words.{num};
ghost use Rattle.limbs.specs.Limbs.{limb_base};
ghost use Rattle.sums.specs.Sums.{carry_of};

// A word's limbs.
const LIMBS: usize = rules::WORD_BYTES / limbs::LIMB_BYTES;

// Whether p + q is at most a + n, for words p, q, a and n. The sums are whole numbers and never wrap: from the last limb to
// the first, `carry` is how far a + n is ahead so far, two too large so that it is never negative.
pub fn sums_at_most(
    p: &[u8; rules::WORD_BYTES],
    q: &[u8; rules::WORD_BYTES],
    a: &[u8; rules::WORD_BYTES],
    n: &[u8; rules::WORD_BYTES],
) -> bool
    ensures { result ≡ leb (num p.now + num q.now) (num a.now + num n.now) }
{
    let mut carry: u64 = 2;
    for i in (0..LIMBS).rev() {
        let at = limbs::LIMB_BYTES * i;
        carry = carried(
            limbs::limb(p, at),
            limbs::limb(q, at),
            limbs::limb(a, at),
            limbs::limb(n, at),
            carry,
        );
    }
    2 <= carry
}

// The carry behind one more limb of each word.
fn carried(p: u64, q: u64, a: u64, n: u64, carry: u64) -> u64
    requires { (p < limb_base) × (q < limb_base) × (a < limb_base) × (n < limb_base) × (carry ≤ 3) }
    ensures { (result ≡ carry_of p q a n carry) × (result ≤ 3) }
{
    (a + n + carry + 2 * (limbs::LIMB_BASE - 1) - (p + q)) / limbs::LIMB_BASE
}
