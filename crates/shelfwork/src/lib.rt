// The work of the program `shelfcheck` apart from reading and writing: what is asked of it next, and what comes of what it read and wrote.
#![tactic(auto)]

ghost use Rattle.std.specs.Prelude.{◌≡◌, ◌+◌};
ghost use Rattle.std.specs.Int.{w64};
ghost use Rattle.std.proofs.Common.{Fits};
ghost use Rattle.report.specs.Passing.{taken_in};
ghost use Rattle.shelfwork.specs.Work.{begun, asking, behind_feed, FedOn, Ended, chunk_read, number_at, FailedAt, After};

use report::feed::{Fed, State, feed, finish, start};
use text::{Failure, write_failure};
use verdict::Refusal;

// What is asked: to read a chunk; to write so many bytes of the output, or to say so many of them on standard error, as the last; nothing more.
#[derive(Clone, Copy, PartialEq, Eq)]
pub enum Ask {
    Read,
    Write(usize),
    Say(usize),
    Stop,
}

// What was done of it: so many bytes were read to the front of the chunk, none at the end of the input; all that was asked was written, or was said.
#[derive(Clone, Copy, PartialEq, Eq)]
pub enum Done {
    Read(usize),
    Wrote,
    Said,
}

// Where the work stands: what is asked, or a refusal, which is 13, for memory that is too short; the report's state; the number of the first line in what is to be written; how long the chunk is, and how much of it was fed; whether the input ended.
#[derive(Clone, Copy, PartialEq, Eq)]
pub struct Work {
    pub ask: Result<Ask, Refusal>,
    pub state: State,
    pub number: u64,
    pub length: usize,
    pub fed: usize,
    pub ended: bool,
}

// Before the first read.
pub fn begin() -> Work
    ensures { result ≡ begun }
{
    Work {
        ask: Ok(Ask::Read),
        state: start(),
        number: 1,
        length: 0,
        fed: 0,
        ended: false,
    }
}

// The same work, with this asked.
fn ask_for(work: Work, ask: Result<Ask, Refusal>) -> Work
    ensures { result ≡ asking work ask }
{
    Work { ask, ..work }
}

// The work behind a call of `feed`.
fn behind_feed(work: Work, answer: Result<Fed, Refusal>) -> Work
    requires { Fits w64 (work.fed + taken_in answer) }
    ensures { result ≡ behind_feed work answer }
{
    match answer {
        Ok(part) => Work {
            ask: Ok(Ask::Write(part.written)),
            state: part.state,
            number: work.state.number,
            fed: work.fed + part.taken,
            ..work
        },
        Err(refusal) => ask_for(work, Err(refusal)),
    }
}

// Feeds what is left of the chunk, and asks to write what came of it; where nothing is left, asks to read the next.
fn feed_more(work: Work, chunk: &[u8], line: &mut [u8], out: &mut [u8]) -> Work
    ensures { FedOn work chunk.now line.old out.old result line.new out.new }
{
    let end = work.length.min(chunk.len());
    let from = work.fed;
    if end <= from {
        return ask_for(work, Ok(Ask::Read));
    }
    let answer = feed(work.state, &chunk[from..end], line, out);
    behind_feed(work, answer)
}

// The input ended: the report line of an open last line is to be written, if there is one.
fn end(work: Work, out: &mut [u8]) -> Work
    ensures { Ended work out.old result out.new }
{
    Work {
        ask: finish(work.state, out).map(Ask::Write),
        state: work.state,
        number: work.state.number,
        length: 0,
        fed: 0,
        ended: true,
    }
}

// The line at which something failed: reading in the open one, writing at the first in what was to be written.
fn number_at(work: Work, failure: Failure) -> u64
    ensures { result ≡ number_at work failure }
{
    match failure {
        Failure::Reading => work.state.number,
        Failure::Writing => work.number,
    }
}

// Something failed: that is to be said, and is the last.
fn fail(work: Work, failure: Failure, out: &mut [u8]) -> Work
    ensures { FailedAt work failure out.old result out.new }
{
    let answer = write_failure(failure, number_at(work, failure), out);
    ask_for(work, answer.map(Ask::Say))
}

// The work with so many bytes in the chunk.
fn chunk_read(work: Work, count: usize) -> Work
    ensures { result ≡ chunk_read work count }
{
    Work {
        ask: Ok(Ask::Read),
        length: count,
        fed: 0,
        ..work
    }
}

// What comes of what was done: at the end of the input the work ends, behind a read and behind a write the chunk is fed, and nothing more is asked behind what was said, or behind the last write.
pub fn go_on(
    work: Work,
    done: Result<Done, Failure>,
    chunk: &[u8],
    line: &mut [u8],
    out: &mut [u8],
) -> Work
    ensures { After work done chunk.now line.old out.old result line.new out.new }
{
    match done {
        Ok(Done::Read(0)) => end(work, out),
        Ok(Done::Read(count)) => feed_more(chunk_read(work, count), chunk, line, out),
        Ok(Done::Wrote) if work.ended => ask_for(work, Ok(Ask::Stop)),
        Ok(Done::Wrote) => feed_more(work, chunk, line, out),
        Ok(Done::Said) => ask_for(work, Ok(Ask::Stop)),
        Err(failure) => fail(work, failure, out),
    }
}
