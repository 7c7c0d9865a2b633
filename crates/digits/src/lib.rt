#![tactic(auto)]
// Lines of lower-case hex: a line's digits into the bytes of its message.
ghost use Rattle.std.specs.Prelude.{◌≡◌, ◌*◌, ◌≤◌, ◌<◌, length, unwrap_or};
ghost use Rattle.rules.specs.Program.{greatest_line};
ghost use Rattle.digits.specs.Decoding.{value_of, pairs, all_digits, Decodes};

// The digits of the longest line.
pub const GREATEST_LINE: usize = 4096;

// The bytes of its message.
pub const GREATEST_MESSAGE: usize = GREATEST_LINE / 2;

// The value of a digit; `None` of another character.
#[tactic(auto, unfolding(crate::specs::Decoding::value_of, rules::specs::Program::digit_of))]
fn value(character: u8) -> Option<u8>
    ensures value { result ≡ value_of character }
    ensures upper_bound { unwrap_or result 0 < 16 }
{
    match character {
        b'0'..=b'9' => Some(character - b'0'),
        b'a'..=b'f' => Some(character - b'a' + 10),
        _ => None,
    }
}

// The bytes of a line, and whether all its characters are digits. The loop has no exit, so that it takes many characters at a
// time. The digits go by index: the prover knows nothing of what is written through a `zip` with `iter_mut`.
fn decode_pairs(line: &[u8], to: &mut [u8]) -> bool
    requires line_len { (length line.now ≡ 2 * length to.old) × (length line.now ≤ greatest_line) }
    ensures value { result ≡ all_digits line.now }
    ensures to_after { to.new ≡ pairs line.now }
{
    let mut right = true;
    for (i, byte) in to.iter_mut().enumerate() {
        let high = value(line[2 * i]);
        let low = value(line[2 * i + 1]);
        *byte = high.unwrap_or(0) * 16 + low.unwrap_or(0);
        right &= high.is_some() & low.is_some();
    }
    right
}

// Decodes a line into the front of `to`: how many bytes its message has, or `None` of a line that is no message.
#[tactic(auto, using(crate::proofs::Messages::all_pairs))]
pub fn decode(line: &[u8], to: &mut [u8]) -> Option<usize>
    requires { greatest_line ≤ 2 * length to.old }
    ensures { Decodes line.now to.old result to.new }
{
    if GREATEST_LINE < line.len() || line.len() % 2 != 0 {
        return None;
    }
    let n = line.len() / 2;
    decode_pairs(line, &mut to[..n]).then_some(n)
}
