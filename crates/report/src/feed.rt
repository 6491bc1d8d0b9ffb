// The report on an input that is fed in chunks: what a read happened to give makes no difference.
ghost use Rattle.std.specs.Prelude.{◌≡◌, ◌+◌, ◌≤◌, ◌<◌, ◌^◌, length};
ghost use Rattle.verdict.specs.Answers.{written};
ghost use Rattle.text.specs.Writing.{room};
ghost use Rattle.lines.specs.Taking.{longest_line};
ghost use Rattle.report.specs.Feeding.{held_answer, FedBy, Finished};
ghost use Rattle.report.specs.Passing.{KeptFrom, Closed};

use frame::examine::{LONGEST, examine};
use hexpairs::decode;
use lines::{LINE, take_piece};
use outcome::{FrameAnswer, Kind, Outcome};
use text::write_line;
use verdict::{Reason, Refusal};

// Room for any report line.
pub const ROOM: usize = text::ROOM;

// The number of the open line, and how many of its characters are held; more than `LINE` where it ran over.
#[derive(Clone, Copy, PartialEq, Eq)]
pub struct State {
    pub number: u64,
    pub held: usize,
}

// How far a chunk was fed: the state, how much of the chunk was taken, how much was written.
#[derive(Clone, Copy, PartialEq, Eq)]
pub struct Fed {
    pub state: State,
    pub taken: usize,
    pub written: usize,
}

// Before the first line.
pub fn start() -> State
    ensures { result ≡ record { number = 1; held = 0 } }
{
    State { number: 1, held: 0 }
}

// The answer to the line that is held; `bytes` has room for what its characters spell.
fn held_answer(line: &[u8], held: usize, bytes: &mut [u8; LONGEST]) -> FrameAnswer
    requires { longest_line ≤ length line.now }
    ensures { result ≡ held_answer line.now held }
{
    if LINE < held {
        return Kind::Unknown.refuse(Reason::FrameLong);
    }
    let bytes = &mut bytes[..];
    match decode(&line[..held], bytes) {
        Ok(count) => examine(&bytes[..count]),
        Err(_) => Kind::Unknown.refuse(Reason::Character),
    }
}

// Keeps the characters before the next LF.
fn keep_piece(at: Fed, chunk: &[u8], line: &mut [u8]) -> Fed
    requires { (longest_line ≤ length line.old) × (at.taken ≤ length chunk.now) }
    ensures { KeptFrom at chunk.now line.old result line.new }
{
    let piece = take_piece(at.state.held, &chunk[at.taken..], line).unwrap();
    Fed {
        state: State {
            number: at.state.number,
            held: piece.held,
        },
        taken: at.taken + piece.count,
        written: at.written,
    }
}

// Closes the line that is held: its report line is written, and LF taken.
fn close(at: Fed, line: &[u8], bytes: &mut [u8; LONGEST], out: &mut [u8]) -> Fed
    requires holds { longest_line ≤ length line.now }
    requires goes_on { at.taken + 1 < 2 ^ 64 }
    requires has_room { at.written + room ≤ length out.old }
    ensures { Closed at line.now out.old result out.new }
{
    let number = at.state.number;
    let answer = held_answer(line, at.state.held, bytes);
    let count = write_line(number, answer, out, at.written).unwrap();
    Fed {
        state: State {
            number: number.saturating_add(1),
            held: 0,
        },
        taken: at.taken + 1,
        written: at.written + count,
    }
}

// Feeds a chunk of the input: writes the report line of each line that it closes, as long as `out` has room for any, and keeps the open line in `line`; or 13.
pub fn feed(state: State, chunk: &[u8], line: &mut [u8], out: &mut [u8]) -> Result<Fed, Refusal>
    ensures { FedBy state chunk.now line.old out.old result line.new out.new }
{
    if (line.len() < LINE) | (out.len() < ROOM) {
        return Err(Reason::SmallBuffer.at(0));
    }
    let mut bytes = [0u8; LONGEST];
    let begun = Fed {
        state,
        taken: 0,
        written: 0,
    };
    let mut at = keep_piece(begun, chunk, line);
    // a turn passes a whole line, whose length is found in it
    while at.taken < chunk.len() && ROOM <= out.len() - at.written {
        let closed = close(at, line, &mut bytes, out);
        at = keep_piece(closed, chunk, line);
    }
    Ok(at)
}

// Behind the last chunk: the report line of an open last line, if there is one.
#[tactic(auto, using(crate::proofs::Closing::finished_none))]
pub fn finish(state: State, out: &mut [u8]) -> Result<usize, Refusal>
    ensures { Finished state out.old (written result) out.new }
{
    if state.held == 0 {
        return Ok(0);
    }
    let answer = FrameAnswer {
        kind: Kind::Unknown,
        outcome: Outcome::Open,
    };
    write_line(state.number, answer, out, 0)
}
