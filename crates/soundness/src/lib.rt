#![tactic(auto)]
// Whether a table is sound: its record form, then one walk over the records, from the list length on and from the first procedure
// on; last, the slots that hold a listed key.
ghost use Rattle.std.specs.Prelude.{◌≡◌, true, length};
ghost use Rattle.rules.specs.Words.{num};
ghost use Rattle.rules.specs.Table.{get, store};
ghost use Rattle.rules.specs.Procedures.{listed};
ghost use Rattle.rules.specs.Sound.{sound, sound_table};
ghost use Rattle.listing.specs.Listings.{Listing};
ghost use Rattle.soundness.specs.Soundness.{SoundList, rest_sound, soundness_of};

pub use finding::Records;
use rules::Refusal;

// Whether a slot holds a listed key, where only a key is listed.
fn holds_listed(table: Records, places: usize, slot: &[u8; rules::WORD_BYTES]) -> bool
    requires { SoundList table places }
    ensures { result ≡ listed (store table.entry.bytes.now) (get (store table.entry.bytes.now) (num slot.now)) }
{
    let key = listing::value_at(table, slot);
    listing::is_key(&key) && listing::listed(table, places, listing::key_part(&key))
}

// What soundness asks besides the list and the procedures.
fn rest_sound(table: Records, places: usize) -> bool
    requires { SoundList table places }
    ensures { result ≡ rest_sound (store table.entry.bytes.now) }
{
    holds_listed(table, places, &slots::current_slot())
        && holds_listed(table, places, &slots::entry_slot())
        && listing::is_address(&listing::value_at(table, &slots::kernel_address_slot()))
}

// Whether the records of a table are sound.
fn store_sound(table: Records) -> bool
    ensures { result ≡ sound (store table.entry.bytes.now) }
{
    let list = table.keys_below(&slots::length_slot());
    if !lists::list_form(table, list) {
        return false;
    }
    let places = table.used - list - lists::NO_PLACES;
    blocks::blocks_form(table, list, places) && rest_sound(table, places)
}

// How many records of a table are occupied, or the refusal of a table that is not sound.
pub fn sound(t: &[u8]) -> Result<usize, Refusal>
    ensures { result ≡ soundness_of t.now }
{
    let Some(used) = table::form_of(t) else {
        return Err(Refusal::UNSOUND);
    };
    if store_sound(Records { bytes: t, used }) {
        Ok(used)
    } else {
        Err(Refusal::UNSOUND)
    }
}

// How many places the list of a sound table has.
pub fn list_length(table: Records) -> usize
    requires { sound_table table.bytes.now ≡ true }
    ensures { Listing table.entry result }
{
    words::small(&listing::value_at(table, &slots::length_slot()))
}
