#![tactic(auto)]
// One line's answer: its message is a system call on the table, and the answer is printed.
ghost use Rattle.std.specs.Prelude.{◌≤◌, ◌≡◌, length};
ghost use Rattle.std.proofs.Math.Option.{some};
ghost use Rattle.rules.specs.Program.{message_of, program_mask};
ghost use Rattle.writing.specs.Wrote.{room};
ghost use Rattle.answering.specs.Answering.{answer_of, Answers, message_room, answer_room};

use writing::Text;

// Room for the answer of any line.
pub const ANSWER_ROOM: usize = printing::LINE_ROOM + 2 * digits::GREATEST_MESSAGE;

// "with code 00 and a mask of 00 only"
const CODE: [u8; 1] = [0x00];

#[tactic(auto, unfolding(rules::specs::Program::program_mask))]
fn mask() -> [u8; rules::WORD_BYTES]
    ensures { result ≡ program_mask }
{
    let mut allowed = [0; rules::WORD_BYTES];
    allowed[0] = 1;
    allowed
}

// Zeros. Only the length is said, which is what lending them asks.
fn message_room() -> [u8; digits::GREATEST_MESSAGE]
    ensures { message_room ≡ length result }
{
    [0; digits::GREATEST_MESSAGE]
}

// A message's answer.
fn answer_message(t: &mut [u8], message: &[u8], text: &mut Text<'_>)
    requires { (length message.now ≤ message_room) × (answer_room ≤ room text.old) }
    ensures { Answers (answer_of t.old (some message.now)) text.old text.new t.new }
{
    let mask = mask();
    let reply = kernel::system_call(t, message, &CODE, &mask);
    printing::print(text, reply, kernel::payload(message, reply));
}

// A line's answer.
pub fn answer_line(t: &mut [u8], line: &[u8], text: &mut Text<'_>)
    requires { answer_room ≤ room text.old }
    ensures { Answers (answer_of t.old (message_of line.now)) text.old text.new t.new }
{
    let mut message = message_room();
    match digits::decode(line, &mut message) {
        Some(n) => answer_message(t, &message[0..n], text),
        None => printing::print_other(text),
    }
}
