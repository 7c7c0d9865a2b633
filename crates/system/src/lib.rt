#![tactic(auto)]
// A message on a sound table, up to the row of its own type.
ghost use Rattle.std.specs.Prelude.{◌≡◌, ◌≤◌, true, length};
ghost use Rattle.rules.specs.Table.{room, store};
ghost use Rattle.rules.specs.Sound.{sound_table};
ghost use Rattle.rules.specs.Messages.{greatest_message, type_of, data_of, named};
ghost use Rattle.rules.specs.Answers.{outcome};
ghost use Rattle.rules.specs.Calls.{do_kind, do_named};
ghost use Rattle.rules.specs.Source.{OfType};
ghost use Rattle.results.specs.Results.{Leaves};
ghost use Rattle.system.specs.System.{Acceptable};

use messages::Named;
use rules::{Kind, Refusal, Reply, Success};
use storing::Table;

// The row of a message's own type, on a sound table.
fn of_kind(
    table: &mut Table,
    kind: Kind,
    d: &[u8],
    code: &[u8],
    mask: &[u8; rules::WORD_BYTES],
) -> Reply
    requires sound_table { sound_table table.old.bytes.now ≡ true }
    requires acceptable { Acceptable kind.0 d.now }
    ensures { OfType kind.0 (λ k. Leaves (outcome table.old.bytes.now (do_kind (room table.old.bytes.now) (store table.old.bytes.now) d.now code.now mask.now k)) result table.old table.new) }
{
    match kind {
        Kind::CALL => calls::call(table.records(), d),
        Kind::REGISTER => registering::register(table, d, code, mask),
        Kind::DELETE => deleting::delete(table, d),
        Kind::SET_ENTRY => calls::set_entry(table, d),
        _ => calls::write(table, d),
    }
}

// A message on a sound table: aa; then Null, which is 66 eb with data and succeeds without; 66 e0 for short data, 66 eb, 66 e6;
// then its type's own row.
pub fn of_message(
    table: &mut Table,
    message: &[u8],
    code: &[u8],
    mask: &[u8; rules::WORD_BYTES],
) -> Reply
    requires sound_table { sound_table table.old.bytes.now ≡ true }
    requires message_len_bound { length message.now ≤ greatest_message }
    ensures { Leaves (outcome table.old.bytes.now (do_named (room table.old.bytes.now) (store table.old.bytes.now) (data_of message.now) code.now mask.now (named (type_of message.now)))) result table.old table.new }
{
    let d = messages::data_of(message);
    match messages::named_by(message) {
        Named::Unknown => Err(Refusal::UNKNOWN_TYPE),
        Named::Null => {
            if 0 < d.len() {
                Err(Refusal::OVERLONG)
            } else {
                Ok(Success::Done)
            }
        }
        Named::Of(kind) => {
            if messages::short(kind, d) {
                return Err(Refusal::SHORT);
            }
            // Both are asked first, so that nothing but the order of the two tests says which code comes first.
            let overlong = messages::overlong(kind, d);
            let leading = messages::leading(kind, d);
            if overlong {
                return Err(Refusal::OVERLONG);
            }
            if leading {
                return Err(Refusal::LEADING_BYTES);
            }
            of_kind(table, kind, d, code, mask)
        }
    }
}
