#![tactic(auto)]
// Records taken out of a table: a procedure's are removed.
ghost use Rattle.rules.specs.Words.{num};
ghost use Rattle.rules.specs.Table.{store};
ghost use Rattle.rules.specs.Calls.{without_procedure};
ghost use Rattle.storing.specs.Storing.{Became};

use storing::Table;

// Removes every record of a procedure: they stand together.
pub fn remove_procedure(table: &mut Table, procedure: &[u8; rules::KEY_BYTES])
    ensures { Became table.old table.new (without_procedure (num procedure.now) (store table.old.bytes.now)) }
{
    let used = table.used;
    let first = slots::address_slot(procedure);
    let last = slots::last_slot(procedure);
    let i = table.records().keys_below(&first);
    let j = records::keys_through(table.records(), &last);
    closing::close(table.bytes, i, j, used);
    table.used -= j - i;
}
