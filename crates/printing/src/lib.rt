#![tactic(auto)]
// The line that is printed for an answer.
ghost use Rattle.std.specs.Prelude.{◌+◌, ◌*◌, ◌≤◌, ◌≡◌, [], ◌∷◌, ◌++◌, length};
ghost use Rattle.rules.specs.Answers.{code_bytes};
ghost use Rattle.rules.specs.Program.{line_feed, space, decimal, spaced};
ghost use Rattle.writing.specs.Wrote.{room, Wrote};
ghost use Rattle.printing.specs.Printing.{printed_flag, printed_fields, printed_reply, other_line, fields_room, line_room};

use rules::{Refusal, Reply, Success};
use writing::Text;

// Room for a line but its payload.
pub const LINE_ROOM: usize = 68;

// Bytes in hex after a space; nothing if there are none.
fn put_spaced(text: &mut Text<'_>, bytes: &[u8])
    requires { 1 + 2 * length bytes.now ≤ room text.old }
    ensures wrote { Wrote text.old (spaced bytes.now) text.new }
    ensures upper_bound { text.new.end ≤ text.old.end + (1 + 2 * length bytes.now) }
{
    if bytes.is_empty() {
        return;
    }
    text.put(b' ');
    text.put_hex(bytes);
}

// A code's one or two bytes in hex after a space.
fn put_code(text: &mut Text<'_>, refusal: Refusal)
    requires { 5 ≤ room text.old }
    ensures wrote { Wrote text.old (spaced (code_bytes refusal.0)) text.new }
    ensures upper_bound { text.new.end ≤ text.old.end + 5 }
{
    let code = refusal.0.to_be_bytes();
    let unused = code.len() - usize::from(refusal.code_len());
    text.put(b' ');
    text.put_hex(&code[unused..]);
}

// A number in decimal after a space.
fn put_number(text: &mut Text<'_>, n: u64)
    requires { 21 ≤ room text.old }
    ensures wrote { Wrote text.old (space ∷ decimal n) text.new }
    ensures upper_bound { text.new.end ≤ text.old.end + 21 }
{
    text.put(b' ');
    decimals::put_decimal(text, n);
}

// The fields after the flag.
#[tactic(auto, unfolding(crate::specs::Printing::printed_fields), using(writing::proofs::Texts::wrote_none))]
fn put_fields(text: &mut Text<'_>, reply: Reply, payload: &[u8])
    requires { fields_room (length payload.now) ≤ room text.old }
    ensures wrote { Wrote text.old (printed_fields reply payload.now) text.new }
    ensures upper_bound { text.new.end ≤ text.old.end + fields_room (length payload.now) }
{
    match reply {
        Ok(Success::Done) => {}
        Ok(Success::Called(address)) => {
            put_spaced(text, &address);
            put_spaced(text, payload)
        }
        Ok(Success::Registered(tests)) => put_number(text, tests),
        Ok(Success::Looked(value)) => put_spaced(text, &value),
        Err(refusal) => put_code(text, refusal),
    }
}

// The flag.
#[tactic(auto, unfolding(crate::specs::Printing::printed_flag))]
fn flag(reply: Reply) -> u8
    ensures { result ≡ printed_flag reply }
{
    match reply {
        Ok(_) => b'1',
        Err(_) => b'0',
    }
}

// A reply's line, with the payload that belongs to it.
pub fn print(text: &mut Text<'_>, reply: Reply, payload: &[u8])
    requires { line_room (length payload.now) ≤ room text.old }
    ensures { Wrote text.old (printed_reply reply payload.now ++ (line_feed ∷ [])) text.new }
{
    text.put(flag(reply));
    put_fields(text, reply, payload);
    text.put(b'\n');
}

// The line that is printed for a line without a message.
#[tactic(auto, unfolding(crate::specs::Printing::other_line), using(writing::proofs::Texts::wrote_both))]
pub fn print_other(text: &mut Text<'_>)
    requires { 2 ≤ room text.old }
    ensures { Wrote text.old other_line text.new }
{
    text.put(b'?');
    text.put(b'\n');
}
