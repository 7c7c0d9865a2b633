#![tactic(auto)]
// The program's input in pieces: each whole line of a piece is answered, and what is left of it begins the next piece.
ghost use Rattle.std.specs.Prelude.{◌≤◌, ◌≡◌, ◌==◌, length, position};
ghost use Rattle.rules.specs.Program.{line_feed};
ghost use Rattle.writing.specs.Wrote.{room};
ghost use Rattle.answering.specs.Answering.{answer_of, Answers, answer_room};
ghost use Rattle.feeding.specs.Feeding.{message_left, kept, Feeds, finished};

use writing::Text;

// What came of a piece: how many of its bytes are taken, whether they end within a line that is too long already, and whether
// there was no room for more answers. Flags, as each of the four cases has a place.
#[derive(Clone, Copy, Debug, PartialEq, Eq)]
pub struct Fed {
    pub taken: usize,
    pub long: bool,
    pub full: bool,
}

// The answer of a line, or of the rest of one that is too long already.
#[tactic(auto, unfolding(crate::specs::Feeding::message_left, answering::specs::Answering::answer_of))]
fn answer_rest(t: &mut [u8], line: &[u8], long: bool, text: &mut Text<'_>)
    requires { answer_room ≤ room text.old }
    ensures { Answers (answer_of t.old (message_left long line.now)) text.old text.new t.new }
{
    if long {
        return printing::print_other(text);
    }
    answering::answer_line(t, line, text)
}

// A piece of n bytes has no line feed from `at` on: the line that begins there is kept, unless it is too long.
#[tactic(auto, unfolding(crate::specs::Feeding::kept))]
fn keep(n: usize, at: usize, long: bool) -> Fed
    requires { at ≤ n }
    ensures { result ≡ kept n at long }
{
    let long = long || digits::GREATEST_LINE < n - at;
    let taken = if long { n } else { at };
    Fed {
        taken,
        long,
        full: false,
    }
}

// How many bytes stand before the first line feed; `None` if there is none.
fn line_length(rest: &[u8]) -> Option<usize>
    ensures { result ≡ position (λ b. b == line_feed) rest.now }
{
    rest.iter().position(|byte| *byte == b'\n')
}

// Answers the whole lines of a piece, while there is room: a loop by its condition, the room that is left.
pub fn feed(t: &mut [u8], piece: &[u8], long: bool, text: &mut Text<'_>) -> Fed
    ensures { Feeds t.old long piece.now text.old result text.new t.new }
{
    let mut begun = long;
    let mut at = 0;
    while answering::ANSWER_ROOM <= text.room() {
        let Some(length) = line_length(&piece[at..]) else {
            return keep(piece.len(), at, begun);
        };
        let end = at + length;
        answer_rest(t, &piece[at..end], begun, text);
        begun = false;
        at = end + 1;
    }
    Fed {
        taken: at,
        long: begun,
        full: true,
    }
}

// Answers the last line.
pub fn finish(t: &mut [u8], line: &[u8], long: bool, text: &mut Text<'_>)
    requires { answer_room ≤ room text.old }
    ensures { Answers (finished t.old long line.now) text.old text.new t.new }
{
    if !long && line.is_empty() {
        return;
    }
    answer_rest(t, line, long, text)
}
