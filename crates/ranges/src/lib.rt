#![tactic(auto)]
// Write capabilities: the addresses that one covers, and the ones that lie within it.
ghost use Rattle.std.specs.Prelude.{◌≡◌, [], ◌∷◌, length};
ghost use Rattle.rules.specs.Words.{word_bytes, num};
ghost use Rattle.rules.specs.Capabilities.{covers_address, within_range};

// Whether a Write capability, base a and additional n, covers an address: a ≤ x ≤ a + n.
pub fn covers_address(
    a: &[u8; rules::WORD_BYTES],
    n: &[u8; rules::WORD_BYTES],
    x: &[u8; rules::WORD_BYTES],
) -> bool
    ensures { result ≡ covers_address (num a.now ∷ num n.now ∷ []) (num x.now) }
{
    within_range(x, &[0u8; rules::WORD_BYTES], a, n)
}

// Whether the Write capability (b, m) lies within (a, n): a ≤ b and b + m ≤ a + n. In line, since a search among held ones asks
// it of each.
#[inline(always)]
#[tactic(auto, unfolding(rules::specs::Capabilities::within_range, rules::specs::Capabilities::word_of))]
pub fn within_range(
    b: &[u8; rules::WORD_BYTES],
    m: &[u8; rules::WORD_BYTES],
    a: &[u8; rules::WORD_BYTES],
    n: &[u8; rules::WORD_BYTES],
) -> bool
    ensures { result ≡ within_range (num b.now ∷ num m.now ∷ []) (num a.now ∷ num n.now ∷ []) }
{
    words::at_most(a, b) && words::sums_at_most(b, m, a, n)
}
