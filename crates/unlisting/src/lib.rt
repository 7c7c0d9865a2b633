#![tactic(auto)]
// A procedure taken off the list of a sound table: the stores of Delete.
ghost use Rattle.std.specs.Prelude.{◌≡◌};
ghost use Rattle.rules.specs.Words.{num};
ghost use Rattle.rules.specs.Table.{store};
ghost use Rattle.rules.specs.Procedures.{index_of};
ghost use Rattle.rules.specs.Calls.{after_delete};
ghost use Rattle.storing.specs.Storing.{Became};
ghost use Rattle.unlisting.specs.Unlisting.{Unlistable, Movable, last_moved};

use storing::{Records, Table};

// The place of a listed key.
fn place_of(table: Records, procedure: &[u8; rules::KEY_BYTES]) -> usize
    requires { Unlistable table.bytes.now (num procedure.now) }
    ensures { result ≡ index_of (store table.entry.bytes.now) (num procedure.now) }
{
    words::small(&listing::value_at(table, &slots::index_slot(procedure)))
}

// Moves the last key of a list of so many places into the freed place, and corrects the moved procedure's index. Where the freed
// place is the last, both stores write what is there already, and nothing moves.
fn move_last(table: &mut Table, places: usize, freed: usize)
    requires { Movable table.old.bytes.now places freed }
    ensures { Became table.old table.new (last_moved (store table.old.bytes.now) freed) }
{
    let last = listing::value_at(table.records(), &slots::place_slot(places));
    table.put(&slots::place_slot(freed), &last);
    let index_slot = slots::index_slot(listing::key_part(&last));
    table.put(&index_slot, &right::number_word(freed));
}

// Delete's stores: besides the move it lowers the length, and removes the records of the freed last place and of the deleted key.
pub fn unlist(table: &mut Table, procedure: &[u8; rules::KEY_BYTES])
    requires { Unlistable table.old.bytes.now (num procedure.now) }
    ensures { Became table.old table.new (after_delete (store table.old.bytes.now) (num procedure.now)) }
{
    let read = table.records();
    let places = soundness::list_length(read);
    let freed = place_of(read, procedure);
    move_last(table, places, freed);
    table.put(&slots::length_slot(), &right::number_word(places - 1));
    table.put(&slots::place_slot(places), &[0; rules::WORD_BYTES]);
    removing::remove_procedure(table, procedure);
}
