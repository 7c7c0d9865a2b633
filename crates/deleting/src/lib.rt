#![tactic(auto)]
// The system call Delete on a sound table: the checks of its row in document 01's order, then its effect.
ghost use Rattle.std.specs.Prelude.{◌≡◌, true, eqb};
ghost use Rattle.rules.specs.Table.{store};
ghost use Rattle.rules.specs.Procedures.{entry_key, current};
ghost use Rattle.rules.specs.Sound.{sound_table};
ghost use Rattle.rules.specs.Messages.{key_word};
ghost use Rattle.rules.specs.Answers.{◌then◌, outcome};
ghost use Rattle.rules.specs.Calls.{delete_row, delete_effect};
ghost use Rattle.results.specs.Results.{NamesKey, Leaves};

use rules::{Kind, Refusal, Reply, Success};
use storing::{Records, Table};

// Whether the message names the entry key. (The rules ask of each key by itself: each is one comparison.)
fn names_entry(table: Records, d: &[u8]) -> bool
    requires sound_table { sound_table table.bytes.now ≡ true }
    requires names_key { NamesKey d.now }
    ensures { result ≡ eqb (key_word d.now) (entry_key (store table.entry.bytes.now)) }
{
    words::same_word(
        messages::key_word(d),
        &listing::value_at(table, &slots::entry_slot()),
    )
}

// Whether it names the current key.
fn names_current(table: Records, d: &[u8]) -> bool
    requires sound_table { sound_table table.bytes.now ≡ true }
    requires names_key { NamesKey d.now }
    ensures { result ≡ eqb (key_word d.now) (current (store table.entry.bytes.now)) }
{
    words::same_word(messages::key_word(d), &acting::current(table))
}

// Delete: 33, 66 e2, 66 33, 66 e3; then the procedure is taken off the list.
pub fn delete(table: &mut Table, d: &[u8]) -> Reply
    requires sound_table { sound_table table.old.bytes.now ≡ true }
    requires names_key { NamesKey d.now }
    ensures { Leaves (outcome table.old.bytes.now (delete_row (store table.old.bytes.now) d.now then delete_effect (store table.old.bytes.now) d.now)) result table.old table.new }
{
    let read = table.records();
    if !acting::permits(read, Kind::DELETE, d, messages::key_word(d)) {
        return Err(Refusal::NOT_COVERED);
    }
    if names_entry(read, d) {
        return Err(Refusal::IS_ENTRY);
    }
    let procedure = messages::key_of(d);
    if !acting::is_listed(read, procedure) {
        return Err(Refusal::NOT_LISTED);
    }
    if names_current(read, d) {
        return Err(Refusal::IS_CURRENT);
    }
    unlisting::unlist(table, procedure);
    Ok(Success::Done)
}
