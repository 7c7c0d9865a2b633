#![tactic(auto)]
// Whether lent bytes have the record form, and how many records are then occupied.
ghost use Rattle.std.specs.Prelude.{◌≡◌, ◌+◌, ◌*◌, ◌≤◌, length};
ghost use Rattle.rules.specs.Words.{word_bytes};
ghost use Rattle.rules.specs.Table.{record_size};
ghost use Rattle.table.specs.Tables.{climbs_at, run_of, form_of};

// Whether the i-th key is above the one before it; the first has none before it.
fn climbs(t: &[u8], i: usize) -> bool
    requires { record_size * i + word_bytes ≤ length t.now }
    ensures { result ≡ climbs_at t.now i }
{
    i == 0
        || words::below(
            moves::word_at(t, rules::RECORD_SIZE * (i - 1)),
            moves::word_at(t, rules::RECORD_SIZE * i),
        )
}

// How many records are occupied, those before the first whose value is zero, if their keys ascend.
fn run(t: &[u8]) -> Option<usize>
    ensures { result ≡ run_of t.now }
{
    let n = t.len() / rules::RECORD_SIZE;
    for i in 0..n {
        if words::is_zero_word(moves::word_at(t, rules::RECORD_SIZE * i + rules::WORD_BYTES)) {
            return Some(i);
        }
        if !climbs(t, i) {
            return None;
        }
    }
    Some(n)
}

// How many records are occupied, if a table has the record form.
pub fn form_of(t: &[u8]) -> Option<usize>
    ensures { result ≡ form_of t.now }
{
    if t.len() % rules::RECORD_SIZE != 0 {
        return None;
    }
    if rules::GREATEST_TABLE < t.len() {
        return None;
    }
    let used = run(t)?;
    if words::is_blank(&t[rules::RECORD_SIZE * used..]) {
        Some(used)
    } else {
        None
    }
}
