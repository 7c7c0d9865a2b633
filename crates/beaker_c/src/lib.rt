#![tactic(auto)]
// The library as a host links it: the functions of `beaker` under their C names, each with its own promise.
ghost use Rattle.replies.specs.Exports.{SetUpExports, TurnExports, LookExports, SystemCallExports};

use replies::Reply;

// Set-up.
#[unsafe(no_mangle)]
pub extern "C" fn beaker_set_up(
    table: &mut [u8],
    key: &[u8],
    address: &[u8],
    kernel_address: &[u8],
) -> Reply
    ensures { SetUpExports table.old key.now address.now kernel_address.now result table.new }
{
    beaker::beaker_set_up(table, key, address, kernel_address)
}

// Turn: the host names the running procedure.
#[unsafe(no_mangle)]
pub extern "C" fn beaker_turn(table: &mut [u8], key: &[u8]) -> Reply
    ensures { TurnExports table.old key.now result table.new }
{
    beaker::beaker_turn(table, key)
}

// Look: one slot's value.
#[unsafe(no_mangle)]
pub extern "C" fn beaker_look(table: &[u8], slot: &[u8]) -> Reply
    ensures { LookExports table.now slot.now result table.now }
{
    beaker::beaker_look(table, slot)
}

// A system call. Its payload is a part of the message.
#[unsafe(no_mangle)]
pub extern "C" fn beaker_system_call(
    table: &mut [u8],
    message: &[u8],
    code: &[u8],
    mask: &[u8],
) -> Reply
    ensures { SystemCallExports table.old message.now code.now mask.now result table.new }
{
    beaker::beaker_system_call(table, message, code, mask)
}
