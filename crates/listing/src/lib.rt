#![tactic(auto)]
// What a slot holds, and whether a key is listed.
ghost use Rattle.std.specs.Prelude.{◌≡◌};
ghost use Rattle.rules.specs.Words.{num};
ghost use Rattle.rules.specs.Table.{get, store};
ghost use Rattle.rules.specs.Procedures.{listed};
ghost use Rattle.holding.specs.Holding.{WordOf};
ghost use Rattle.listing.specs.Listings.{Listing};

pub use holding::Records;
pub use key_words::{is_address, is_key, key_part};

// What a slot holds.
pub fn value_at(table: Records, slot: &[u8; rules::WORD_BYTES]) -> [u8; rules::WORD_BYTES]
    ensures { WordOf (get (store table.entry.bytes.now) (num slot.now)) result }
{
    records::look(table, slot)
}

// Whether a key is listed, where the list has `places` places.
pub fn listed(table: Records, places: usize, procedure: &[u8; rules::KEY_BYTES]) -> bool
    requires { Listing table places }
    ensures { result ≡ listed (store table.entry.bytes.now) (num procedure.now) }
{
    let index_slot = slots::index_slot(procedure);
    let index = words::small(&value_at(table, &index_slot));
    if index < 1 || places < index {
        return false;
    }
    let place_slot = slots::place_slot(index);
    key_words::same_key(&value_at(table, &place_slot), procedure)
}
