#![tactic(auto)]
// The library that a host links: set-up, Turn, Look and the system calls, thin over `kernel`. A host lends byte slices and gets
// the struct of `replies` back. No function asks anything of what it is lent. `beaker_c` gives them their C names.
ghost use Rattle.replies.specs.Exports.{SetUpExports, TurnExports, LookExports, SystemCallExports};

pub use replies::Reply;

// Set-up.
pub fn beaker_set_up(table: &mut [u8], key: &[u8], address: &[u8], kernel_address: &[u8]) -> Reply
    ensures { SetUpExports table.old key.now address.now kernel_address.now result table.new }
{
    replies::laid_out(kernel::set_up(table, key, address, kernel_address), 0)
}

// Turn: the host names the running procedure.
pub fn beaker_turn(table: &mut [u8], key: &[u8]) -> Reply
    ensures { TurnExports table.old key.now result table.new }
{
    replies::laid_out(kernel::turn(table, key), 0)
}

// Look: one slot's value.
pub fn beaker_look(table: &[u8], slot: &[u8]) -> Reply
    ensures { LookExports table.now slot.now result table.now }
{
    replies::laid_out(kernel::look(table, slot), 0)
}

// A system call. Its payload is a part of the message.
pub fn beaker_system_call(table: &mut [u8], message: &[u8], code: &[u8], mask: &[u8]) -> Reply
    ensures { SystemCallExports table.old message.now code.now mask.now result table.new }
{
    let reply = kernel::system_call(table, message, code, mask);
    replies::laid_out(reply, kernel::payload(message, reply).len())
}
