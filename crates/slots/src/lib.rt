#![tactic(auto, unfolding(rules::specs::KernelStorage::ending, rules::specs::KernelStorage::address_slot, rules::specs::KernelStorage::index_slot, rules::specs::KernelStorage::count_slot, rules::specs::KernelStorage::word_slot, rules::specs::KernelStorage::length_slot, rules::specs::KernelStorage::kernel_address_slot, rules::specs::KernelStorage::current_slot, rules::specs::KernelStorage::entry_slot, rules::specs::Words::num, rules::specs::Words::num_after))]
// The keys of the slots of kernel storage.
ghost use Rattle.std.specs.Prelude.{◌≡◌};
ghost use Rattle.rules.specs.Words.{num};
ghost use Rattle.rules.specs.KernelStorage.{slot, ending, address_slot, index_slot, count_slot, word_slot};
ghost use Rattle.rules.specs.KernelStorage.{length_slot, place_slot, kernel_address_slot, current_slot, entry_slot};
ghost use Rattle.slots.specs.Slots.{KeyOf};

pub use layout::{slot, write_number};

// The last 8 bytes of the middle, as long as a place of the list.
const PLACE_AT: usize = 16;

// The regions, as numbers, which is how a key has them: an enum would be turned into its number at each use.
const PROCEDURES: u8 = 0;

const LIST: u8 = 1;

const KERNEL_ADDRESS: u8 = 2;

const CURRENT: u8 = 3;

const ENTRY: u8 = 4;

// The contract address of a procedure.
pub fn address_slot(procedure: &[u8; rules::KEY_BYTES]) -> [u8; rules::WORD_BYTES]
    ensures { KeyOf (address_slot (num procedure.now)) result }
{
    layout::slot(PROCEDURES, procedure, 0, 0, 0)
}

// The last slot that a procedure can have: its address has the first.
pub fn last_slot(procedure: &[u8; rules::KEY_BYTES]) -> [u8; rules::WORD_BYTES]
    ensures { KeyOf (slot 0 (num procedure.now) (ending 255 255 255)) result }
{
    layout::slot(PROCEDURES, procedure, 255, 255, 255)
}

// The procedure index.
pub fn index_slot(procedure: &[u8; rules::KEY_BYTES]) -> [u8; rules::WORD_BYTES]
    ensures { KeyOf (index_slot (num procedure.now)) result }
{
    layout::slot(PROCEDURES, procedure, 0, 0, 1)
}

// The number of a procedure's capabilities of a type.
pub fn count_slot(procedure: &[u8; rules::KEY_BYTES], kind: rules::Kind) -> [u8; rules::WORD_BYTES]
    ensures { KeyOf (count_slot (num procedure.now) kind.0) result }
{
    layout::slot(PROCEDURES, procedure, kind.0, 0, 0)
}

// Word k, from 0, of a procedure's i-th capability of a type, i from 1.
pub fn word_slot(
    procedure: &[u8; rules::KEY_BYTES],
    kind: rules::Kind,
    i: u8,
    k: u8,
) -> [u8; rules::WORD_BYTES]
    ensures { KeyOf (word_slot (num procedure.now) kind.0 i k) result }
{
    layout::slot(PROCEDURES, procedure, kind.0, i, k)
}

// The slot of the list that has the given middle.
fn list_slot(middle: &[u8; rules::KEY_BYTES]) -> [u8; rules::WORD_BYTES]
    ensures { KeyOf (slot 1 (num middle.now) 0) result }
{
    layout::slot(LIST, middle, 0, 0, 0)
}

// The n-th procedure key, n from 1.
pub fn place_slot(n: usize) -> [u8; rules::WORD_BYTES]
    ensures { KeyOf (place_slot n) result }
{
    let mut middle = [0u8; rules::KEY_BYTES];
    layout::write_number(&mut middle[PLACE_AT..], n);
    list_slot(&middle)
}

// The one slot of a region whose middle and end are zero. Each such slot has a function of the rules' name below.
fn single_slot(region: u8) -> [u8; rules::WORD_BYTES]
    ensures { KeyOf (slot region 0 0) result }
{
    layout::slot(region, &[0u8; rules::KEY_BYTES], 0, 0, 0)
}

// The list length.
pub fn length_slot() -> [u8; rules::WORD_BYTES]
    ensures { KeyOf length_slot result }
{
    single_slot(LIST)
}

pub fn kernel_address_slot() -> [u8; rules::WORD_BYTES]
    ensures { KeyOf kernel_address_slot result }
{
    single_slot(KERNEL_ADDRESS)
}

// The current key.
pub fn current_slot() -> [u8; rules::WORD_BYTES]
    ensures { KeyOf current_slot result }
{
    single_slot(CURRENT)
}

// The entry key.
pub fn entry_slot() -> [u8; rules::WORD_BYTES]
    ensures { KeyOf entry_slot result }
{
    single_slot(ENTRY)
}
