#![tactic(auto)]
// How many records the capabilities that a Register requests need: each word that is not zero, and each type that is requested.
ghost use Rattle.std.specs.Prelude.{◌≡◌, ◌≤◌, length};
ghost use Rattle.rules.specs.Capabilities.{kinds};
ghost use Rattle.rules.specs.Messages.{series_at, requests};
ghost use Rattle.requests.specs.Requests.{WellFormedFrom};
ghost use Rattle.counting.specs.Counting.{requests_taken, kinds_taken, WordsTaken, Needed};

use rules::Kind;

// How many of a capability's words are not zero.
fn words_taken(capability: &[u8]) -> usize
    ensures { WordsTaken capability.now result }
{
    let mut total = 0;
    for word in capability.chunks_exact(rules::WORD_BYTES) {
        if !words::is_zero(word) {
            total += 1;
        }
    }
    total
}

// How many words of the requested capabilities are not zero.
fn requests_taken(d: &[u8]) -> usize
    requires { WellFormedFrom d.now series_at }
    ensures { (result ≡ requests_taken (requests d.now)) × (result ≤ length d.now) }
{
    let mut total = 0;
    for request in series::requests(d) {
        total += words_taken(request.words);
    }
    total
}

// How many types have a capability requested. No type's number is smaller than Call's.
fn kinds_taken(d: &[u8]) -> usize
    requires { WellFormedFrom d.now series_at }
    ensures { (result ≡ kinds_taken (requests d.now) kinds) × (result ≤ 5) }
{
    let counts = series::requested(d);
    counts[usize::from(Kind::CALL.0)..]
        .iter()
        .filter(|count| **count != 0)
        .count()
}

// How many records the requested capabilities need, each of which has a slot of its own.
pub fn records_needed(d: &[u8]) -> usize
    requires { WellFormedFrom d.now series_at }
    ensures { Needed d.now result }
{
    kinds_taken(d) + requests_taken(d)
}
