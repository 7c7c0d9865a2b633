#![tactic(auto)]
// Register's series of requested capabilities, read in the data as it was lent. `d` is the data of a Register message, `rest` the
// series from a request on to its end.
ghost use Rattle.std.specs.Prelude.{◌≡◌, ◌<◌, length};
ghost use Rattle.rules.specs.Messages.{series_at, requests};
ghost use Rattle.rules.specs.Calls.{too_many};
ghost use Rattle.requests.specs.Requests.{WellFormed, WellFormedFrom};
ghost use Rattle.series.specs.Series.{FirstRequest, AllLeft, requested_counts};

pub use requests::well_formed;
use rules::Kind;

// A request of a well-formed series: its type, and its words.
#[derive(Clone, Copy, Debug, PartialEq, Eq)]
pub struct Request<'a> {
    pub kind: Kind,
    pub words: &'a [u8],
}

// The first request of a well-formed series that has one.
pub fn first_request<'a>(rest: &'a [u8]) -> Request<'a>
    requires { (0 < length rest.now) × WellFormed rest.now }
    ensures { FirstRequest rest.now result }
{
    let kind = Kind(rest[requests::HEAD - 1]);
    let end = requests::HEAD + rules::WORD_BYTES * kind.words();
    Request {
        kind,
        words: &rest[requests::HEAD..end],
    }
}

// The requests of a well-formed series that are left, in order.
#[derive(Drop)]
pub struct Series<'a> {
    rest: &'a [u8],
}

impl<'a> Iterator for Series<'a> {
    ghost use Rattle.std.specs.Iterator.{item_count};
    ghost use Rattle.series.specs.Series.{left, WellFormedLeft, GivesRequest};

    type Item = Request<'a>;

    ghost can_next = { WellFormedLeft };

    ghost next_gives = { GivesRequest };

    ghost remaining = { item_count left };

    fn next(&mut self) -> Option<Request<'a>> {
        if self.rest.is_empty() {
            return None;
        }
        let request = first_request(self.rest);
        self.rest = &self.rest[requests::HEAD + request.words.len()..];
        Some(request)
    }
}

// The requests of a well-formed series.
pub fn requests<'a>(d: &'a [u8]) -> Series<'a>
    requires { WellFormedFrom d.now series_at }
    ensures { AllLeft d.now result }
{
    Series {
        rest: d.get(rules::SERIES_AT..).unwrap_or_default(),
    }
}

// How many requests of a well-formed series are of each type, at the type's number.
pub fn requested(d: &[u8]) -> [usize; rules::TYPES]
    requires { WellFormedFrom d.now series_at }
    ensures { result ≡ requested_counts (requests d.now) }
{
    let mut counts = [0; rules::TYPES];
    for request in requests(d) {
        counts[usize::from(request.kind.0)] += 1;
    }
    counts
}

// Whether more of one type are requested than a procedure may hold. No type's number is smaller than Call's.
pub fn too_many(d: &[u8]) -> bool
    requires { WellFormedFrom d.now series_at }
    ensures { result ≡ too_many (requests d.now) }
{
    let counts = requested(d);
    counts[usize::from(Kind::CALL.0)..]
        .iter()
        .any(|count| rules::GREATEST_COUNT < *count)
}
