#![tactic(auto)]
// The struct that the library returns: a host gets one struct of plain numbers and bytes back, and the payload of a Call stays in
// the host's own message, where the struct says.
ghost use Rattle.std.specs.Prelude.{◌≡◌};
ghost use Rattle.rules.specs.Answers.{code_bytes};
ghost use Rattle.replies.specs.Exports.{padded};
ghost use Rattle.replies.specs.Parts.{struct_of};

use rules::{Refusal, Success};

// What a call answers. A field that the answer does not name is zero. Of the code the first `code_len` bytes count; the payload
// is the `payload_len` bytes of the message from `payload_at` on.
#[repr(C)]
#[derive(Clone, Copy, Debug, PartialEq, Eq)]
pub struct Reply {
    pub tests: u64,
    pub payload_at: usize,
    pub payload_len: usize,
    pub address: [u8; rules::ADDRESS_BYTES],
    pub value: [u8; rules::WORD_BYTES],
    pub flag: u8,
    pub code_len: u8,
    pub code: [u8; 2],
}

// A success that reports nothing else.
const DONE: Reply = Reply {
    tests: 0,
    payload_at: 0,
    payload_len: 0,
    address: [0; rules::ADDRESS_BYTES],
    value: [0; rules::WORD_BYTES],
    flag: 1,
    code_len: 0,
    code: [0, 0],
};

// The bytes of a refusal's code, and zero behind a code of one.
fn padded_code(refusal: Refusal) -> [u8; 2]
    ensures { result ≡ padded (code_bytes refusal.0) }
{
    let [first, last] = refusal.0.to_be_bytes();
    if refusal.code_len() == 1 {
        [last, 0]
    } else {
        [first, last]
    }
}

// The kernel's reply as the struct, with the length of the payload that a Call's has.
#[tactic(auto, unfolding(crate::specs::Parts::struct_of))]
pub fn laid_out(reply: rules::Reply, payload_len: usize) -> Reply
    ensures { result ≡ struct_of reply payload_len }
{
    match reply {
        Ok(Success::Done) => DONE,
        Ok(Success::Called(address)) => Reply {
            payload_at: rules::MESSAGE_PAYLOAD_AT,
            payload_len,
            address,
            ..DONE
        },
        Ok(Success::Registered(tests)) => Reply { tests, ..DONE },
        Ok(Success::Looked(value)) => Reply { value, ..DONE },
        Err(refusal) => Reply {
            flag: 0,
            code_len: refusal.code_len(),
            code: padded_code(refusal),
            ..DONE
        },
    }
}
