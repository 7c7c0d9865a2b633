#![tactic(auto)]
// The library tied to the demands: each function calls one of `beaker` and does nothing more, and its contract is demands 1 and
// 2, for every input. One of `beaker` whose contract says less is refused here, and one whose body does less than its contract
// there. The exports of `beaker_c` are those functions, each under the contract that it has in `beaker`. No host calls the ones
// here.
ghost use Rattle.demands.specs.Kernels.{state_of, setting_up, turning, looking, calling};
ghost use Rattle.tied.specs.Tied.{Demanded};

use replies::Reply;

pub fn set_up_demanded(table: &mut [u8], key: &[u8], address: &[u8], kernel_address: &[u8]) -> Reply
    ensures { Demanded (state_of table.old) (setting_up key.now address.now kernel_address.now) result (state_of table.new) }
{
    beaker::beaker_set_up(table, key, address, kernel_address)
}

pub fn turn_demanded(table: &mut [u8], key: &[u8]) -> Reply
    ensures { Demanded (state_of table.old) (turning key.now) result (state_of table.new) }
{
    beaker::beaker_turn(table, key)
}

pub fn look_demanded(table: &[u8], slot: &[u8]) -> Reply
    ensures { Demanded (state_of table.now) (looking slot.now) result (state_of table.now) }
{
    beaker::beaker_look(table, slot)
}

pub fn system_call_demanded(table: &mut [u8], message: &[u8], code: &[u8], mask: &[u8]) -> Reply
    ensures { Demanded (state_of table.old) (calling message.now code.now mask.now) result (state_of table.new) }
{
    beaker::beaker_system_call(table, message, code, mask)
}
