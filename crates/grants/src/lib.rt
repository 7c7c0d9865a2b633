#![tactic(auto)]
// What Register asks of the requested capabilities: each lies within a single one that the current procedure holds.
ghost use Rattle.std.specs.Prelude.{◌≡◌, ◌≤◌, true, length};
ghost use Rattle.rules.specs.Table.{store};
ghost use Rattle.rules.specs.Sound.{sound_table};
ghost use Rattle.rules.specs.Messages.{greatest_message, series_at, requests};
ghost use Rattle.requests.specs.Requests.{WellFormedFrom};
ghost use Rattle.grants.specs.Grants.{Granted};

use held::{Held, Records};

// How many tests it took to find each requested capability contained; none if one is not. For each in order, held ones of its
// type in order. Nothing is stored here: a request is judged by what is held before the call. What one search read serves the
// next, as long as the type stays the same.
pub fn judge_requests(table: Records, d: &[u8]) -> Option<u64>
    requires sound_table { sound_table table.bytes.now ≡ true }
    requires well_formed_from { WellFormedFrom d.now series_at × (length d.now ≤ greatest_message) }
    ensures { Granted (store table.entry.bytes.now) (requests d.now) result }
{
    let holder = acting::current(table);
    let registrar = listing::key_part(&holder);
    let mut held = Held::unread(table, registrar, rules::Kind::CALL);
    let mut tests: u64 = 0;
    for request in series::requests(d) {
        let found = held.search(table, registrar, request.kind, request.words);
        if !found.contained {
            return None;
        }
        // A cast: there is no `From` between the two.
        tests += found.tests as u64;
    }
    Some(tests)
}
