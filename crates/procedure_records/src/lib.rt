#![tactic(auto)]
// A procedure's own records: its address, its index, how many capabilities it has of each type, and these.
ghost use Rattle.rules.specs.Words.{num};
ghost use Rattle.rules.specs.Table.{puts, store};
ghost use Rattle.rules.specs.Capabilities.{kinds};
ghost use Rattle.rules.specs.Messages.{requests};
ghost use Rattle.rules.specs.Calls.{kind_records};
ghost use Rattle.storing.specs.Storing.{Became};
ghost use Rattle.capability_records.specs.CapabilityRecords.{Takes};
ghost use Rattle.procedure_records.specs.ProcedureRecords.{naming_records, procedure_records, KindsNeeds, ProcedureNeeds};

use rules::Kind;
use storing::Table;

// The procedure's address, and its index.
fn put_own(
    table: &mut Table,
    place: usize,
    procedure: &[u8; rules::KEY_BYTES],
    address: &[u8; rules::WORD_BYTES],
)
    requires { Takes table.old.bytes.now (naming_records place (num procedure.now) (num address.now)) }
    ensures { Became table.old table.new (puts (store table.old.bytes.now) (naming_records place (num procedure.now) (num address.now))) }
{
    table.put(&slots::address_slot(procedure), address);
    table.put(&slots::index_slot(procedure), &right::number_word(place));
}

// For each type how many are requested, and then these.
fn put_kinds(table: &mut Table, procedure: &[u8; rules::KEY_BYTES], d: &[u8])
    requires { KindsNeeds table.old.bytes.now (num procedure.now) d.now }
    ensures { Became table.old table.new (puts (store table.old.bytes.now) (kind_records (num procedure.now) (requests d.now) kinds)) }
{
    let counts = series::requested(d);
    for kind in Kind::ALL {
        let count = counts[usize::from(kind.0)];
        table.put(
            &slots::count_slot(procedure, kind),
            &right::number_word(count),
        );
        capability_records::put_kind(table, procedure, kind, count, d);
    }
}

// The records of a procedure, in ascending order of their keys.
pub fn put_procedure(
    table: &mut Table,
    place: usize,
    procedure: &[u8; rules::KEY_BYTES],
    address: &[u8; rules::WORD_BYTES],
    d: &[u8],
)
    requires { ProcedureNeeds table.old.bytes.now place (num procedure.now) (num address.now) d.now }
    ensures { Became table.old table.new (puts (store table.old.bytes.now) (procedure_records place (num procedure.now) (num address.now) (requests d.now))) }
{
    put_own(table, place, procedure, address);
    put_kinds(table, procedure, d);
}
