#![tactic(auto)]
// A number in decimal, written into a lent buffer as crate `writing` writes text.
ghost use Rattle.std.specs.Prelude.{◌%◌, ◌≤◌, ◌≡◌, length};
ghost use Rattle.rules.specs.Program.{decimal};
ghost use Rattle.writing.specs.Wrote.{room, Wrote};

use writing::Text;

// A number in decimal: the digits before its last, then that one. By hand, as `writing` writes: std's `Display` does not
// promise which bytes it leaves. (A cast: a remainder by ten fits a byte.)
pub fn put_decimal(text: &mut Text<'_>, n: u64)
    requires { length (decimal n) ≤ room text.old }
    ensures { Wrote text.old (decimal n) text.new }
{
    let last = b'0' + (n % 10) as u8;
    if n < 10 {
        return text.put(last);
    }
    put_decimal(text, n / 10);
    text.put(last);
}
