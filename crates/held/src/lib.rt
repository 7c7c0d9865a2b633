#![tactic(auto)]
// The search among the capabilities that a procedure holds for one that contains another. Each is copied
// from the table when it is first tested, so that a later search for a request of its type finds the copy.
ghost use Rattle.std.specs.Prelude.{◌≡◌, ◌≤◌, ◌<◌, min};
ghost use Rattle.rules.specs.Words.{num};
ghost use Rattle.rules.specs.Table.{get, store};
ghost use Rattle.rules.specs.KernelStorage.{count_slot};
ghost use Rattle.rules.specs.Sound.{greatest_count};
ghost use Rattle.words.specs.Words.{small_limit};
ghost use Rattle.held.specs.Held.{Reached, Unread, Ready, ReachedBehind, SearchNeeds, Searched};

pub use holding::{Records, capability, count_of};
use rules::Kind;

// Copies of as many capabilities of one type as a procedure may hold.
const COPIES_BYTES: usize = rules::GREATEST_COUNT * holding::CAPABILITY_BYTES;

// The capabilities of one type that a procedure holds: how many there are, and copies of those that were read, from the first on.
// `next` is a guess where the next one's words stand in the table.
#[derive(Clone, Drop)]
pub struct Held {
    copies: [u8; COPIES_BYTES],
    kind: Kind,
    number: usize,
    read: usize,
    next: usize,
}

// What a search finds: whether a held capability contains the requested one, and how many were tested. The last one tested
// is the first that contains it, so `tests` is then its place among those held, from 1. No Option holds `tests`: it counts in
// both cases (`Searched`).
#[derive(Clone, Copy, Debug, PartialEq, Eq)]
pub struct Search {
    pub contained: bool,
    pub tests: usize,
}

// How many of a type are held, and a guess where the words of the first stand: behind that count. (A pair, so that a
// `Held` is made whole, and its 16 KB are not copied.)
fn count_and_next(table: Records, procedure: &[u8; rules::KEY_BYTES], kind: Kind) -> (usize, usize)
    ensures { result.0 ≡ min (get (store table.entry.bytes.now) (count_slot (num procedure.now) kind.0)) small_limit }
{
    let count = holding::read_count(table, procedure, kind);
    (count.number, count.place + 1)
}

impl Held {
    // Those of a type, before one is read.
    pub fn unread(table: Records, procedure: &[u8; rules::KEY_BYTES], kind: Kind) -> Held
        ensures { Unread (store table.entry.bytes.now) (num procedure.now) kind.0 result }
    {
        let (number, next) = count_and_next(table, procedure, kind);
        Held {
            copies: [0; COPIES_BYTES],
            kind,
            number,
            read: 0,
            next,
        }
    }

    // Begins anew unless it is of the type. The copies stay, since none counts as read.
    fn turn_to(&mut self, table: Records, procedure: &[u8; rules::KEY_BYTES], kind: Kind)
        ensures { Ready (store table.entry.bytes.now) (num procedure.now) kind.0 self.old self.new }
    {
        if self.kind != kind {
            let (number, next) = count_and_next(table, procedure, kind);
            self.kind = kind;
            self.number = number;
            self.read = 0;
            self.next = next;
        }
    }

    // Reads the capability behind the first i, unless there is a copy.
    fn read_next(&mut self, table: Records, procedure: &[u8; rules::KEY_BYTES], i: usize)
        requires reached { Reached (store table.bytes.now) (num procedure.now) self.old }
        requires i_le_read { (i ≤ self.old.read) × (i < greatest_count) }
        ensures { ReachedBehind (store table.entry.bytes.now) (num procedure.now) self.old.kind.0 i self.new }
    {
        if i < self.read {
            return;
        }
        let at = holding::CAPABILITY_BYTES * i;
        let end = at + holding::CAPABILITY_BYTES;
        let part = &mut self.copies[at..end];
        // A cast below: at most 255 are held.
        let read = i + 1;
        self.next = holding::read_words(part, table, procedure, self.kind, read as u8, self.next);
        self.read = read;
    }

    // Held capabilities of the requested one's type in order, up to and including the first that contains it.
    pub fn search(
        &mut self,
        table: Records,
        procedure: &[u8; rules::KEY_BYTES],
        kind: Kind,
        request: &[u8],
    ) -> Search
        requires search_needs { SearchNeeds (store table.bytes.now) (num procedure.now) kind.0 request.now }
        requires reached { Reached (store table.bytes.now) (num procedure.now) self.old }
        ensures { Searched (store table.entry.bytes.now) (num procedure.now) kind.0 request.now self.new result }
    {
        self.turn_to(table, procedure, kind);
        let number = self.number;
        for i in 0..number {
            self.read_next(table, procedure, i);
            let at = holding::CAPABILITY_BYTES * i;
            let end = at + holding::CAPABILITY_BYTES;
            if rights::within(kind, request, &self.copies[at..end]) {
                return Search {
                    contained: true,
                    tests: i + 1,
                };
            }
        }
        Search {
            contained: false,
            tests: number,
        }
    }
}
