#![tactic(auto)]
// The program of document 01: it sets up a table, reads messages as lines of hex, and prints a line for each answer.
// What is printed for a piece of the input is promised and proved in `feeding`. Here the pieces are read and the answers written.
ghost use Rattle.std.specs.Prelude.{◌≤◌, ◌≡◌, length, IfOk, OnErr};
ghost use Rattle.std.specs.Io.{StartsWith};
ghost use Rattle.answering.specs.Answering.{answer_room};
ghost use Rattle.portal.specs.States.{Within, unanswered};

use std::io;
use std::io::{Read, Write};
use writing::Text;

// The bytes of each buffer: as many as the longest table has.
const BUFFER: usize = rules::GREATEST_TABLE;

// The input's bytes from `start` to `end` are still to be answered. `long` says that they begin within a line that is too long
// already, `more` that the input may not have ended: each of the two whatever the other is.
#[derive(Clone, Copy)]
struct State {
    start: usize,
    end: usize,
    long: bool,
    more: bool,
}

// The bytes that are left move to the front, and the input is read behind them.
fn read_more<R: Read>(from: &mut R, input: &mut [u8], left: State) -> io::Result<State>
    requires { Within left input.old }
    ensures ok { IfOk result (λ s. Within s input.new) }
    ensures kept { IfOk result (λ s. StartsWith (unanswered s input.new) (unanswered left input.old)) }
    ensures err { OnErr result (length input.new ≡ length input.old) }
{
    input.copy_within(left.start..left.end, 0);
    let kept = left.end - left.start;
    let n = from.read(&mut input[kept..])?;
    Ok(State {
        start: 0,
        end: kept + n,
        long: left.long,
        more: n != 0,
    })
}

// Answers what is there, writes the answers, and reads more once no whole line is left: nobody waits for an answer while the
// program waits for input.
fn turn<R: Read, W: Write>(
    from: &mut R,
    to: &mut W,
    t: &mut [u8],
    input: &mut [u8],
    out: &mut [u8],
    state: State,
) -> io::Result<State>
    requires { Within state input.old }
    ensures ok { IfOk result (λ s. Within s input.new) }
    ensures err { OnErr result (length input.new ≡ length input.old) }
{
    let mut text = Text::new(out);
    let fed = feeding::feed(t, &input[state.start..state.end], state.long, &mut text);
    to.write_all(text.written())?;
    let left = State {
        start: state.start + fed.taken,
        end: state.end,
        long: fed.long,
        more: true,
    };
    if fed.full {
        Ok(left)
    } else {
        read_more(from, input, left)
    }
}

// A proved loop has to end, and nothing says that the input does: it counts its turns, up to a number that no run uses up.
fn run<R: Read, W: Write>(
    from: &mut R,
    to: &mut W,
    t: &mut [u8],
    input: &mut [u8],
    out: &mut [u8],
) -> io::Result<()>
    requires { answer_room ≤ length out.old }
{
    let mut state = State {
        start: 0,
        end: 0,
        long: false,
        more: true,
    };
    for _ in 0..u64::MAX {
        if !state.more {
            break;
        }
        state = turn(from, to, t, input, out, state)?;
    }
    let mut text = Text::new(out);
    feeding::finish(t, &input[state.start..state.end], state.long, &mut text);
    to.write_all(text.written())
}

fn main(rt: HostRuntime) -> io::Result<()> {
    let mut t = [0u8; BUFFER];
    let mut input = [0u8; BUFFER];
    let mut out = [0u8; BUFFER];
    program_table::set_up(&mut t);
    let mut from = rt.reader();
    let mut to = io::writer(&rt);
    run(&mut from, &mut to, &mut t, &mut input, &mut out)
}
