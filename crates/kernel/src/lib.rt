#![tactic(auto)]
// The kernel: set-up, Turn, Look and the system calls on a lent table. No function asks anything of what it is lent: each
// promises the whole answer and every byte of the table after, for every input.
ghost use Rattle.kernel.specs.Promises.{SetUpPromise, TurnPromise, LookPromise, SystemCallPromise};

pub use payloads::payload;
use rules::{Refusal, Reply, Success};
use storing::{Records, Table};

// Set-up: 66 ed for each size, 66 ef for the table's length; then the rest.
pub fn set_up(t: &mut [u8], key: &[u8], address: &[u8], kernel_address: &[u8]) -> Reply
    ensures { SetUpPromise t.old key.now address.now kernel_address.now result t.new }
{
    let Some(key) = key.as_array() else {
        return Err(Refusal::WRONG_BYTES);
    };
    let Some(address) = address.as_array() else {
        return Err(Refusal::WRONG_BYTES);
    };
    let Some(kernel_address) = kernel_address.as_array() else {
        return Err(Refusal::WRONG_BYTES);
    };
    if t.len() % rules::RECORD_SIZE != 0 {
        return Err(Refusal::UNSOUND);
    }
    if rules::GREATEST_TABLE < t.len() {
        return Err(Refusal::UNSOUND);
    }
    starting::set_up_fresh(t, key, address, kernel_address)
}

// Turn: the host names the running procedure.
pub fn turn(t: &mut [u8], running: &[u8]) -> Reply
    ensures { TurnPromise t.old running.now result t.new }
{
    let Some(running) = running.as_array() else {
        return Err(Refusal::WRONG_BYTES);
    };
    let used = soundness::sound(t)?;
    turning::turn_to(&mut Table { bytes: t, used }, running)
}

// Look: one slot's value.
pub fn look(t: &[u8], slot: &[u8]) -> Reply
    ensures { LookPromise t.now slot.now result t.now }
{
    let Some(slot) = slot.as_array() else {
        return Err(Refusal::WRONG_BYTES);
    };
    let used = soundness::sound(t)?;
    Ok(Success::Looked(records::look(Records { bytes: t, used }, slot)))
}

// A system call: 66 ed, 66 ef, 66 e0 for an empty message, 66 ea; then the message.
pub fn system_call(t: &mut [u8], message: &[u8], code: &[u8], mask: &[u8]) -> Reply
    ensures { SystemCallPromise t.old message.now code.now mask.now result t.new }
{
    let Some(mask) = mask.as_array() else {
        return Err(Refusal::WRONG_BYTES);
    };
    let used = soundness::sound(t)?;
    if message.is_empty() {
        return Err(Refusal::SHORT);
    }
    if rules::GREATEST_MESSAGE < message.len() {
        return Err(Refusal::MESSAGE_TOO_LONG);
    }
    system::of_message(&mut Table { bytes: t, used }, message, code, mask)
}
