#![tactic(auto)]
// Set-up where its sizes are right: the checks that are left of its row, then the first table.
ghost use Rattle.std.specs.Prelude.{◌≡◌, true};
ghost use Rattle.rules.specs.Table.{length_fits};
ghost use Rattle.rules.specs.Answers.{outcome};
ghost use Rattle.results.specs.Results.{Gives};
ghost use Rattle.starting.specs.Starting.{set_up_on_sizes};

use rules::{Refusal, Reply, Success};

// The bytes of the 13 records that set-up needs.
const FIRST_ROOM: usize = 13 * rules::RECORD_SIZE;

// 66 e4, 66 e7; then the first table, whatever the table held.
pub fn set_up_fresh(
    t: &mut [u8],
    key: &[u8; rules::KEY_BYTES],
    address: &[u8; rules::ADDRESS_BYTES],
    kernel_address: &[u8; rules::ADDRESS_BYTES],
) -> Reply
    requires { length_fits t.old ≡ true }
    ensures { Gives (outcome t.old (set_up_on_sizes t.old key.now address.now kernel_address.now)) result t.new }
{
    if words::is_zero(key) {
        return Err(Refusal::ZERO);
    }
    if words::is_zero(address) {
        return Err(Refusal::ZERO);
    }
    if words::is_zero(kernel_address) {
        return Err(Refusal::ZERO);
    }
    if t.len() < FIRST_ROOM {
        return Err(Refusal::NO_ROOM);
    }
    founding::found(t, key, address, kernel_address);
    Ok(Success::Done)
}
