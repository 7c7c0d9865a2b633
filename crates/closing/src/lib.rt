#![tactic(auto)]
// Records taken out of a table, by its bytes: between the steps they have not the record form, so they are no `Table`.
ghost use Rattle.std.specs.Prelude.{◌≡◌, ◌*◌, ◌≤◌, length};
ghost use Rattle.rules.specs.Table.{record_size};
ghost use Rattle.closing.specs.Closing.{closed};

// Without the records from i to j of the `used` occupied ones: those from j on move up, and zeros follow them.
pub fn close(t: &mut [u8], i: usize, j: usize, used: usize)
    requires { (i ≤ j) × (j ≤ used) × (record_size * used ≤ length t.old) }
    ensures { t.new ≡ closed i j used t.old }
{
    let at = rules::RECORD_SIZE * i;
    let from = rules::RECORD_SIZE * j;
    let end = rules::RECORD_SIZE * used;
    t.copy_within(from..end, at);
    t[at + (end - from)..end].fill(0);
}
