#![tactic(auto)]
// The records from the list length on: the places in order, the kernel address, the current and the entry key.
ghost use Rattle.std.specs.Prelude.{◌≡◌, [], ◌∷◌, ◌+◌, ◌*◌, ◌-◌, ◌<◌, eqb, length, drop};
ghost use Rattle.rules.specs.Words.{word_bytes, num, word_at};
ghost use Rattle.rules.specs.Table.{record_size, store};
ghost use Rattle.rules.specs.KernelStorage.{length_slot, place_slot, kernel_address_slot, current_slot, entry_slot};
ghost use Rattle.limbs.specs.Limbs.{limb_base};
ghost use Rattle.walks.specs.Walks.{keys_from, keys_are, before_list, list_form};

pub use listing::Records;

// The records behind the places: the kernel address, the current and the entry key.
const FIXED: usize = 3;

// The records from the list length on that are no places.
pub const NO_PLACES: usize = 1 + FIXED;

// Whether the i-th record has a slot's key.
fn is_slot(table: Records, i: usize, slot: &[u8; rules::WORD_BYTES]) -> bool
    requires { i < table.used }
    ensures { result ≡ eqb (word_at table.entry.bytes.now (record_size * i)) (num slot.now) }
{
    words::same_word(moves::word_at(table.bytes, rules::RECORD_SIZE * i), slot)
}

// Where in a key the last four bytes of the middle begin.
const NUMBER_AT: usize = keys::END_AT - limbs::LIMB_BYTES;

// Whether a key is that of the n-th place. It differs from the list length's, `start`, only in the last four bytes of the middle.
// (A cast: there is no `From` between the two.)
fn is_place_key(key: &[u8; rules::WORD_BYTES], start: &[u8; rules::WORD_BYTES], n: usize) -> bool
    requires { (num start.now ≡ length_slot) × (n < limb_base) }
    ensures { result ≡ eqb (num key.now) (place_slot n) }
{
    words::same(&key[..NUMBER_AT], &start[..NUMBER_AT])
        && limbs::limb(key, NUMBER_AT) == n as u64
        && words::is_zero(&key[keys::END_AT..])
}

// Whether the last three records are the kernel address, the current and the entry key.
fn fixed_follow(table: Records, i: usize) -> bool
    requires { i + 3 ≡ table.used }
    ensures { result ≡ keys_are (drop i (store table.entry.bytes.now)) (kernel_address_slot ∷ current_slot ∷ entry_slot ∷ []) }
{
    is_slot(table, i, &slots::kernel_address_slot())
        && is_slot(table, i + 1, &slots::current_slot())
        && is_slot(table, i + 2, &slots::entry_slot())
}

// Whether the records behind the list length are the places, and then the last three.
fn places_follow(table: Records, list: usize) -> bool
    requires { (list + 4 < table.used) × (word_at table.bytes.now (record_size * list) ≡ length_slot) }
    ensures { result ≡ keys_are (drop (list + 1) (store table.entry.bytes.now)) (keys_from 1 (table.entry.used - list - 4)) }
{
    let start = moves::word_at(table.bytes, rules::RECORD_SIZE * list);
    let last = table.used - FIXED;
    for i in list + 1..last {
        if !is_place_key(
            moves::word_at(table.bytes, rules::RECORD_SIZE * i),
            start,
            i - list,
        ) {
            return false;
        }
    }
    fixed_follow(table, last)
}

// Whether the records from the list length on are as they have to be, where `list` stand before it.
pub fn list_form(table: Records, list: usize) -> bool
    requires { list ≡ before_list (store table.bytes.now) }
    ensures { result ≡ list_form (store table.entry.bytes.now) }
{
    if table.used <= list + NO_PLACES {
        return false;
    }
    let value = moves::word_at(table.bytes, rules::RECORD_SIZE * list + rules::WORD_BYTES);
    is_slot(table, list, &slots::length_slot())
        && words::small(value) == table.used - list - NO_PLACES
        && places_follow(table, list)
}
