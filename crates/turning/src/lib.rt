#![tactic(auto)]
// Turn on a sound table: the check that is left of its row, then its effect.
ghost use Rattle.std.specs.Prelude.{◌≡◌, true};
ghost use Rattle.rules.specs.Sound.{sound_table};
ghost use Rattle.rules.specs.Answers.{outcome};
ghost use Rattle.results.specs.Results.{Leaves};
ghost use Rattle.turning.specs.Turning.{turn_on_sound};

use rules::{Refusal, Reply, Success};
use storing::Table;

// 66 33; then the current slot alone changes.
pub fn turn_to(table: &mut Table, key: &[u8; rules::KEY_BYTES]) -> Reply
    requires { sound_table table.old.bytes.now ≡ true }
    ensures { Leaves (outcome table.old.bytes.now (turn_on_sound table.old.bytes.now key.now)) result table.old table.new }
{
    if !acting::is_listed(table.records(), key) {
        return Err(Refusal::NOT_LISTED);
    }
    table.put(&slots::current_slot(), &right::right_word(key));
    Ok(Success::Done)
}
