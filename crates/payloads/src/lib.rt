#![tactic(auto)]
// The payload of an answer: a part of the caller's own message.
ghost use Rattle.std.specs.Prelude.{◌≡◌, []};
ghost use Rattle.payloads.specs.Payloads.{PayloadPromise};

use rules::{Reply, Success};

// The empty part of a message, at its end.
fn empty_part(message: &[u8]) -> &[u8]
    ensures { result.now ≡ [] }
{
    &message[message.len()..]
}

// The payload of a Call that was permitted: a part of the caller's own message, and no copy. For every other answer it is empty.
pub fn payload(message: &[u8], reply: Reply) -> &[u8]
    ensures { PayloadPromise message.now reply result.now }
{
    match reply {
        Ok(Success::Called(_)) => messages::payload_of(message),
        Ok(Success::Done) => empty_part(message),
        Ok(Success::Registered(_)) => empty_part(message),
        Ok(Success::Looked(_)) => empty_part(message),
        Err(_) => empty_part(message),
    }
}
