// The text of a report line, and of a failure, written into a lent buffer.
#![tactic(auto)]

ghost use Rattle.std.specs.Prelude.{◌≡◌, ◌≤◌, length};
ghost use Rattle.verdict.specs.Answers.{written};
ghost use Rattle.text.specs.Text.{word_of, first_number_of, second_of, failure_of, failure_text};
ghost use Rattle.text.specs.Writing.{WrittenLine, WrittenText};

mod line;

use line::{Line, write};
use outcome::{FrameAnswer, Outcome};
use verdict::Refusal;

// Room for any report line.
pub const ROOM: usize = 80;

fn word_of(outcome: Outcome) -> &'static [u8]
    ensures { result.now ≡ word_of outcome }
{
    match outcome {
        Outcome::Ok(_) => b"OK",
        Outcome::Cut(_) => b"CUT",
        Outcome::Bad(_) => b"BAD",
        Outcome::Open => b"OPEN",
    }
}

// A line's two numbers.
fn numbers_of(outcome: Outcome) -> (u64, u64)
    ensures { result ≡ (first_number_of outcome, second_of outcome) }
{
    match outcome {
        Outcome::Ok(count) => (count as u64, 0),
        Outcome::Cut(missing) => (missing as u64, 0),
        Outcome::Bad(refusal) => (u64::from(refusal.reason), refusal.place as u64),
        Outcome::Open => (0, 0),
    }
}

// Writes a report line at a place: the count of its bytes, or 13 where it has no room.
pub fn write_line(
    number: u64,
    answer: FrameAnswer,
    out: &mut [u8],
    place: usize,
) -> Result<usize, Refusal>
    ensures { WrittenLine number answer out.old place (written result) out.new }
{
    let (first, second) = numbers_of(answer.outcome);
    let mut line = Line::new();
    line.put_number(second);
    line.put(b" ");
    line.put_number(first);
    line.put(b" ");
    line.put(word_of(answer.outcome));
    line.put(&[b' ', u8::from(answer.kind), b' ']);
    line.put_number(number);
    write(line.text(), out, place)
}

// What failed: reading the input, or writing the report.
#[derive(Clone, Copy, PartialEq, Eq)]
pub enum Failure {
    Reading,
    Writing,
}

fn words_of(failure: Failure) -> &'static [u8]
    ensures { result.now ≡ failure_of failure }
{
    match failure {
        Failure::Reading => b"shelfcheck: reading failed at line ",
        Failure::Writing => b"shelfcheck: writing failed at line ",
    }
}

// Writes a failure at a line to the front: the count of its bytes, or 13 where it has no room.
pub fn write_failure(failure: Failure, number: u64, out: &mut [u8]) -> Result<usize, Refusal>
    ensures { WrittenText (failure_text failure number) out.old 0 (written result) out.new }
{
    let mut line = Line::new();
    line.put_number(number);
    line.put(words_of(failure));
    write(line.text(), out, 0)
}
