#![tactic(auto)]
// Code validation at registration: the opcode mask alone decides which code passes.
ghost use Rattle.std.specs.Prelude.{◌≡◌, ◌≤◌, ◌==◌, ◌||◌, length, position, not};
ghost use Rattle.rules.specs.Validation.{greatest_code, allowed, data_bytes, walk, passes};

// The opcodes that data bytes follow are those from the first push to the last.
const FIRST_PUSH: u8 = 0x60;

const LAST_PUSH: u8 = 0x7f;

// Whether the mask allows an opcode.
pub fn allowed(mask: &[u8; rules::WORD_BYTES], opcode: u8) -> bool
    ensures { result ≡ allowed mask.now opcode }
{
    let at = usize::from(opcode >> 3);
    (mask[at] >> (opcode & 7)) & 1 == 1
}

// How many data bytes follow an opcode.
#[tactic(auto, unfolding(rules::specs::Validation::data_bytes))]
pub fn data_bytes(opcode: u8) -> usize
    ensures { result ≡ data_bytes opcode }
{
    match opcode {
        FIRST_PUSH..=LAST_PUSH => usize::from(opcode - (FIRST_PUSH - 1)),
        _ => 0,
    }
}

// The place of the first opcode that pushes data or is not allowed. Most opcodes push nothing: here the place of the next one is
// known before this one is read, so a processor reads ahead.
fn first_other(mask: &[u8; rules::WORD_BYTES], code: &[u8]) -> Option<usize>
    ensures { result ≡ position (λ k. not (data_bytes k == 0) || not (allowed mask.now k)) code.now }
{
    code.iter().position(|opcode| data_bytes(*opcode) != 0 || !allowed(mask, *opcode))
}

// Whether every walked opcode is allowed. The end of the code may cut an opcode's data.
fn walk(mask: &[u8; rules::WORD_BYTES], code: &[u8]) -> bool
    ensures { result ≡ walk mask.now 0 code.now }
{
    let mut rest = code;
    while let Some(at) = first_other(mask, rest) {
        let opcode = rest[at];
        if !allowed(mask, opcode) {
            return false;
        }
        // No `unwrap_or_default`: with a choice of two slices in place of a branch, code that pushes is walked slower by a fourth.
        let Some(behind) = rest[at..].get(1 + data_bytes(opcode)..) else {
            return true;
        };
        rest = behind;
    }
    true
}

// Whether the code passes the mask.
#[tactic(auto, unfolding(rules::specs::Validation::passes))]
pub fn passes(mask: &[u8; rules::WORD_BYTES], code: &[u8]) -> bool
    ensures { result ≡ passes mask.now code.now }
{
    (1..=rules::GREATEST_CODE).contains(&code.len()) && walk(mask, code)
}
