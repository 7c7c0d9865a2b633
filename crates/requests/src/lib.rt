#![tactic(auto)]
// Whether Register's series of requested capabilities is well formed. `rest` is the series from a request on to its end.
ghost use Rattle.std.specs.Prelude.{◌≡◌, true, false, not, MatchOption};
ghost use Rattle.rules.specs.Words.{num};
ghost use Rattle.rules.specs.Messages.{series_of, malformed};
ghost use Rattle.rules.specs.Source.{is_type};
ghost use Rattle.requests.specs.Requests.{first_request, request_length};

use rules::Kind;

// CapSize and CapType, which stand before a request's words.
pub const HEAD: usize = 2 * rules::WORD_BYTES;

// The type that a word names, if it is the number of one.
fn kind_of(word: &[u8; rules::WORD_BYTES]) -> Option<Kind>
    ensures { MatchOption result (is_type (num word.now) ≡ false) (λ kind. (kind.0 ≡ num word.now) × (is_type kind.0 ≡ true)) }
{
    Kind::try_from(u8::try_from(words::small(word)).ok()?).ok()
}

// The bytes of a series' first request; none if it is malformed.
fn request_bytes(rest: &[u8]) -> Option<usize>
    ensures { result ≡ request_length (first_request rest.now) }
{
    if rest.len() < HEAD {
        return None;
    }
    let kind = kind_of(moves::word_at(rest, rules::WORD_BYTES))?;
    let count = kind.words();
    if words::small(moves::word_at(rest, 0)) != 1 + count {
        return None;
    }
    let bytes = HEAD + rules::WORD_BYTES * count;
    if rest.len() < bytes {
        return None;
    }
    rights::prefix_in_range(kind, &rest[HEAD..]).then_some(bytes)
}

// Whether the series of Register's data is whole words, and each request has the size, type and prefix that it may have.
pub fn well_formed(d: &[u8]) -> bool
    ensures { result ≡ not (malformed (series_of d.now)) }
{
    let mut rest = d.get(rules::SERIES_AT..).unwrap_or_default();
    if rest.len() % rules::WORD_BYTES != 0 {
        return false;
    }
    // A loop by hand: each request says how long it is, so `chunks_exact` does not go over them.
    while !rest.is_empty() {
        let Some(bytes) = request_bytes(rest) else {
            return false;
        };
        rest = &rest[bytes..];
    }
    true
}
