#![tactic(auto)]
// The stores of Register: the key is appended to the list, and the new procedure's records are put where room is made for them.
ghost use Rattle.std.specs.Prelude.{◌≡◌, true, length};
ghost use Rattle.rules.specs.Words.{num};
ghost use Rattle.rules.specs.Table.{puts, store, record_form};
ghost use Rattle.rules.specs.Messages.{requests};
ghost use Rattle.rules.specs.Calls.{after_register};
ghost use Rattle.storing.specs.Storing.{Became};
ghost use Rattle.capability_records.specs.CapabilityRecords.{Takes};
ghost use Rattle.procedure_records.specs.ProcedureRecords.{procedure_records, ProcedureNeeds};
ghost use Rattle.appending.specs.Appending.{place_records, NewNeeds, AppendNeeds};

use storing::Table;

// The key at its place of the list, and the list's length.
fn put_place(table: &mut Table, place: usize, procedure: &[u8; rules::KEY_BYTES])
    requires { Takes table.old.bytes.now (place_records place (num procedure.now)) }
    ensures { Became table.old table.new (puts (store table.old.bytes.now) (place_records place (num procedure.now))) }
{
    table.put(&slots::place_slot(place), &right::right_word(procedure));
    table.put(&slots::length_slot(), &right::number_word(place));
}

// The records of a procedure, put behind the `used` occupied ones of a table. A function of its own, since what a table leaves is
// known where it is built over all the bytes that are lent.
fn put_behind(
    t: &mut [u8],
    used: usize,
    place: usize,
    procedure: &[u8; rules::KEY_BYTES],
    address: &[u8; rules::WORD_BYTES],
    d: &[u8],
)
    requires form { record_form t.old ≡ true }
    requires count { used ≡ length (store t.old) }
    requires needs { ProcedureNeeds t.old place (num procedure.now) (num address.now) d.now }
    ensures form { record_form t.new ≡ true }
    ensures stored { store t.new ≡ puts (store t.old) (procedure_records place (num procedure.now) (num address.now) (requests d.now)) }
{
    let mut table = Table { bytes: t, used };
    procedure_records::put_procedure(&mut table, place, procedure, address, d);
}

// The records of a procedure that has none yet. They stand together, so room is made for all of them at once, and the table up to
// its end is one in which each is put behind the others. Those of the capabilities need `needed` records.
fn insert_procedure(
    table: &mut Table,
    place: usize,
    procedure: &[u8; rules::KEY_BYTES],
    address: &[u8; rules::WORD_BYTES],
    d: &[u8],
    needed: usize,
)
    requires { NewNeeds table.old.bytes.now place (num procedure.now) (num address.now) d.now needed }
    ensures { Became table.old table.new (puts (store table.old.bytes.now) (procedure_records place (num procedure.now) (num address.now) (requests d.now))) }
{
    let used = table.used;
    let i = table.records().keys_below(&slots::address_slot(procedure));
    // The address and the index are not zero.
    let count = 2 + needed;
    // Lent for both calls: between them the bytes have not the record form.
    let bytes = &mut *table.bytes;
    gaps::make_room(bytes, i, count, used);
    let end = rules::RECORD_SIZE * (i + count);
    put_behind(&mut bytes[..end], i, place, procedure, address, d);
    table.used += count;
}

// Appends a procedure to the list of `places`, with its address, a word, and the capabilities that are requested for it, which
// need `needed` records.
pub fn append(
    table: &mut Table,
    places: usize,
    procedure: &[u8; rules::KEY_BYTES],
    address: &[u8; rules::WORD_BYTES],
    d: &[u8],
    needed: usize,
)
    requires { AppendNeeds table.old.bytes.now places (num procedure.now) (num address.now) d.now needed }
    ensures { Became table.old table.new (after_register (store table.old.bytes.now) (num procedure.now) (num address.now) (requests d.now)) }
{
    let place = places + 1;
    put_place(table, place, procedure);
    insert_procedure(table, place, procedure, address, d, needed);
}
