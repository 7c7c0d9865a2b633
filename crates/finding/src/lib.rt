#![tactic(auto)]
// The record table read: where a key stands.
ghost use Rattle.std.specs.Prelude.{◌≡◌, true, ◌≤◌, eqb, ltb, length};
ghost use Rattle.rules.specs.Words.{num};
ghost use Rattle.rules.specs.Table.{store, record_form};
ghost use Rattle.finding.specs.Finding.{keys_below, place_of, has_key};

// A table of the record form, and how many of its records are occupied.
#[derive(Clone, Copy)]
pub struct Records<'a> {
    pub bytes: &'a [u8],
    pub used: usize,
    pub ghost form: { record_form bytes.now ≡ true },
    pub ghost count: { used ≡ length (store bytes.now) },
}

impl Records<'_> {
    // How many have a key below the given one.
    pub fn keys_below(self, key: &[u8; rules::WORD_BYTES]) -> usize
        ensures { result ≡ keys_below (store self.entry.bytes.now) (num key.now) }
    {
        let (records, _) = self.bytes.as_chunks::<{ rules::RECORD_SIZE }>();
        records[..self.used].partition_point(|record| words::below(
            record.first_chunk().unwrap(),
            key,
        ))
    }

    // Whether the i-th is occupied and has a key.
    fn has_key(self, i: usize, key: &[u8; rules::WORD_BYTES]) -> bool
        ensures { result ≡ has_key self.entry.bytes.now i (num key.now) }
    {
        i < self.used && words::same_word(moves::word_at(self.bytes, rules::RECORD_SIZE * i), key)
    }

    // The index of a key's record, or the one that it would have.
    pub fn find(self, key: &[u8; rules::WORD_BYTES]) -> Result<usize, usize>
        ensures { result ≡ place_of (store self.entry.bytes.now) (num key.now) }
    {
        let i = self.keys_below(key);
        if self.has_key(i, key) { Ok(i) } else { Err(i) }
    }

    // Whether a key's place lies before i: the record before i decides.
    fn stands_before(self, i: usize, key: &[u8; rules::WORD_BYTES]) -> bool
        requires { i ≤ self.used }
        ensures { result ≡ ltb (keys_below (store self.entry.bytes.now) (num key.now)) i }
    {
        i != 0
            && words::at_most(
                key,
                moves::word_at(self.bytes, rules::RECORD_SIZE * (i - 1)),
            )
    }

    // Whether i is a key's place: the records before i and at i decide.
    fn is_place(self, i: usize, key: &[u8; rules::WORD_BYTES]) -> bool
        ensures { result ≡ eqb (keys_below (store self.entry.bytes.now) (num key.now)) i }
    {
        i <= self.used
            && !self.stands_before(i, key)
            && (i == self.used || self.stands_before(i + 1, key))
    }

    // The same as `find`, whatever the guess. A guess that is the key's place spares the search.
    pub fn find_near(self, guess: usize, key: &[u8; rules::WORD_BYTES]) -> Result<usize, usize>
        ensures { result ≡ place_of (store self.entry.bytes.now) (num key.now) }
    {
        if self.has_key(guess, key) {
            return Ok(guess);
        }
        if self.is_place(guess, key) {
            return Err(guess);
        }
        self.find(key)
    }
}
