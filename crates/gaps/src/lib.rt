#![tactic(auto)]
// Records written in a table: one is put in, one has another value, room is made for several. The functions take bytes and how
// many records are occupied, and no `Table`: between their steps the bytes have not the record form.
ghost use Rattle.std.specs.Prelude.{◌≡◌, ◌+◌, ◌*◌, ◌≤◌, length};
ghost use Rattle.rules.specs.Table.{record_size};
ghost use Rattle.gaps.specs.Gaps.{inserted, replaced, opened};

// A record before record i of the `used` occupied ones: those from there on move down by one.
pub fn insert(
    t: &mut [u8],
    i: usize,
    used: usize,
    key: &[u8; rules::WORD_BYTES],
    value: &[u8; rules::WORD_BYTES],
)
    requires { (i ≤ used) × (record_size * used + record_size ≤ length t.old) }
    ensures { t.new ≡ inserted i used key.now value.now t.old }
{
    let at = rules::RECORD_SIZE * i;
    let end = rules::RECORD_SIZE * used;
    t.copy_within(at..end, at + rules::RECORD_SIZE);
    let middle = at + rules::WORD_BYTES;
    t[at..middle].copy_from_slice(key);
    t[middle..at + rules::RECORD_SIZE].copy_from_slice(value);
}

// Another value in record i.
pub fn replace(t: &mut [u8], i: usize, value: &[u8; rules::WORD_BYTES])
    requires { record_size * i + record_size ≤ length t.old }
    ensures { t.new ≡ replaced i value.now t.old }
{
    let at = rules::RECORD_SIZE * i;
    t[at + rules::WORD_BYTES..at + rules::RECORD_SIZE].copy_from_slice(value);
}

// Room for `count` records before record i of the `used` occupied ones: those from there on move down, and zeros take their
// place.
pub fn make_room(t: &mut [u8], i: usize, count: usize, used: usize)
    requires { (i ≤ used) × (record_size * used + record_size * count ≤ length t.old) }
    ensures { t.new ≡ opened i count used t.old }
{
    let at = rules::RECORD_SIZE * i;
    let end = rules::RECORD_SIZE * used;
    let stop = at + rules::RECORD_SIZE * count;
    t.copy_within(at..end, stop);
    t[at..stop].fill(0);
}
