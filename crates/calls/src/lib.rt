#![tactic(auto)]
// The system calls Call, Set Entry and Write on a sound table: the checks of each row in document 01's order, then its effect.
ghost use Rattle.std.specs.Prelude.{◌≡◌, ◌*◌, ◌^◌, ◌≤◌, ◌<◌, true, length};
ghost use Rattle.rules.specs.Words.{word_bytes, address_bytes, num, bytes_of};
ghost use Rattle.rules.specs.Table.{room, store};
ghost use Rattle.rules.specs.Sound.{sound_table};
ghost use Rattle.rules.specs.Answers.{◌then◌, outcome};
ghost use Rattle.rules.specs.Calls.{call_row, call_effect, set_entry_row, set_entry_effect, write_row, write_effect};
ghost use Rattle.results.specs.Results.{NamesKey, Gives, Leaves};

use rules::{Kind, Refusal, Reply, Success};
use storing::{Records, Table};

// The 20 bytes of a word that holds an address.
fn address_part(word: &[u8; rules::WORD_BYTES]) -> [u8; rules::ADDRESS_BYTES]
    requires { num word.now < 256 ^ address_bytes }
    ensures { result ≡ bytes_of address_bytes (num word.now) }
{
    *word.last_chunk().unwrap()
}

// Call: 33, 66 33; then the callee's address. The payload is in the caller's own message.
pub fn call(table: Records, d: &[u8]) -> Reply
    requires sound_table { sound_table table.bytes.now ≡ true }
    requires names_key { NamesKey d.now }
    ensures { Gives (outcome table.entry.bytes.now (call_row (store table.entry.bytes.now) d.now then call_effect (store table.entry.bytes.now) d.now)) result table.entry.bytes.now }
{
    if !acting::permits(table, Kind::CALL, d, messages::key_word(d)) {
        return Err(Refusal::NOT_COVERED);
    }
    let callee = messages::key_of(d);
    if !acting::is_listed(table, callee) {
        return Err(Refusal::NOT_LISTED);
    }
    let word = listing::value_at(table, &slots::address_slot(callee));
    Ok(Success::Called(address_part(&word)))
}

// Set Entry: 33, 66 33; then the entry slot alone changes.
pub fn set_entry(table: &mut Table, d: &[u8]) -> Reply
    requires sound_table { sound_table table.old.bytes.now ≡ true }
    requires names_key { NamesKey d.now }
    ensures { Leaves (outcome table.old.bytes.now (set_entry_row (store table.old.bytes.now) d.now then set_entry_effect (store table.old.bytes.now) d.now)) result table.old table.new }
{
    let read = table.records();
    if !acting::index_in_range(read, Kind::SET_ENTRY, d) {
        return Err(Refusal::NOT_COVERED);
    }
    if !acting::is_listed(read, messages::key_of(d)) {
        return Err(Refusal::NOT_LISTED);
    }
    table.put(&slots::entry_slot(), messages::key_word(d));
    Ok(Success::Done)
}

// Write: 33 (index, cover, kernel storage), 66 e7; then one slot changes.
pub fn write(table: &mut Table, d: &[u8]) -> Reply
    requires sound_table { sound_table table.old.bytes.now ≡ true }
    requires word_bytes_in_bounds { 3 * word_bytes ≤ length d.now }
    ensures { Leaves (outcome table.old.bytes.now (write_row (room table.old.bytes.now) (store table.old.bytes.now) d.now then write_effect (store table.old.bytes.now) d.now)) result table.old table.new }
{
    let address = messages::write_address(d);
    let value = messages::write_value(d);
    let read = table.records();
    if !acting::permits(read, Kind::WRITE, d, address) {
        return Err(Refusal::NOT_COVERED);
    }
    if keys::in_kernel_storage(address) {
        return Err(Refusal::NOT_COVERED);
    }
    if read.bytes.len() / rules::RECORD_SIZE < storing::needed(read, address, value) {
        return Err(Refusal::NO_ROOM);
    }
    table.put(address, value);
    Ok(Success::Done)
}
