#![tactic(auto)]
// The system call Register on a sound table: the checks of its row in document 01's order, then its effect. The row is in three
// parts, each of which ends with the next: what the message names, the capabilities that it requests, and the room that they
// need.
ghost use Rattle.std.specs.Prelude.{◌≡◌, true};
ghost use Rattle.rules.specs.Table.{room, store};
ghost use Rattle.rules.specs.Sound.{sound_table};
ghost use Rattle.rules.specs.Messages.{requests};
ghost use Rattle.rules.specs.Answers.{◌then◌, outcome};
ghost use Rattle.rules.specs.Calls.{tests, register_row, register_effect};
ghost use Rattle.results.specs.Results.{Leaves};
ghost use Rattle.registering.specs.Registering.{NamesProcedure, Appendable, Judgeable, on_room, on_requests};

use rules::{Kind, Refusal, Reply, Success};
use storing::Table;

// The last of the row: 66 e7; then the procedure is appended.
fn append_if_room(table: &mut Table, places: usize, d: &[u8], tests: u64) -> Reply
    requires sound_table { sound_table table.old.bytes.now ≡ true }
    requires appendable { Appendable table.old.bytes.now places d.now }
    ensures { Leaves (outcome table.old.bytes.now (on_room (room table.old.bytes.now) (store table.old.bytes.now) d.now tests)) result table.old table.new }
{
    let needed = counting::records_needed(d);
    // A new procedure has a record for its place, its address and its index; the list length has one already.
    let after = table.used + 3 + needed;
    if table.bytes.len() / rules::RECORD_SIZE < after {
        return Err(Refusal::NO_ROOM);
    }
    let address = messages::address_word(d);
    appending::append(table, places, messages::key_of(d), address, d, needed);
    Ok(Success::Registered(tests))
}

// From the series on: 66 77, 33 (requested), 66 e1, 66 e8; then the rest. Every request is judged before anything is stored.
fn judge_series(table: &mut Table, d: &[u8]) -> Reply
    requires sound_table { sound_table table.old.bytes.now ≡ true }
    requires judgeable { Judgeable d.now }
    ensures { Leaves (outcome table.old.bytes.now (on_requests (room table.old.bytes.now) (store table.old.bytes.now) d.now)) result table.old table.new }
{
    if series::too_many(d) {
        return Err(Refusal::TOO_MANY);
    }
    let Some(tests) = grants::judge_requests(table.records(), d) else {
        return Err(Refusal::NOT_COVERED);
    };
    if acting::is_listed(table.records(), messages::key_of(d)) {
        return Err(Refusal::ALREADY_LISTED);
    }
    let places = soundness::list_length(table.records());
    if places == rules::GREATEST_LIST {
        return Err(Refusal::LIST_FULL);
    }
    append_if_room(table, places, d, tests)
}

// Register: 66 e4, 33 (index, cover), 66 e9, 66 e5; then the requests.
pub fn register(table: &mut Table, d: &[u8], code: &[u8], mask: &[u8; rules::WORD_BYTES]) -> Reply
    requires sound_table { sound_table table.old.bytes.now ≡ true }
    requires names_procedure { NamesProcedure d.now }
    ensures { Leaves (outcome table.old.bytes.now (register_row (room table.old.bytes.now) (store table.old.bytes.now) d.now code.now mask.now then register_effect (store table.old.bytes.now) d.now (tests (store table.old.bytes.now) (requests d.now)))) result table.old table.new }
{
    let key = messages::key_word(d);
    if words::is_zero(key) {
        return Err(Refusal::ZERO);
    }
    if words::is_zero(messages::address_word(d)) {
        return Err(Refusal::ZERO);
    }
    if !acting::permits(table.records(), Kind::REGISTER, d, key) {
        return Err(Refusal::NOT_COVERED);
    }
    if !opcodes::passes(mask, code) {
        return Err(Refusal::CODE_FAILS);
    }
    if !series::well_formed(d) {
        return Err(Refusal::MALFORMED_SERIES);
    }
    judge_series(table, d)
}
