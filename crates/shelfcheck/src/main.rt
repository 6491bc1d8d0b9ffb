// Checks a file of frames: a line of hexadecimal for each on standard input, a report line for each on standard output. Here it only reads, writes and asks `shelfwork` what comes next.
#![tactic(auto)]

use shelfwork::{Ask, Done};
use std::io::{Read, Write};
use text::Failure;

// One read.
fn read<R: Read>(input: &mut R, chunk: &mut [u8]) -> Result<Done, Failure> {
    input
        .read(chunk)
        .map(Done::Read)
        .map_err(|_| Failure::Reading)
}

// The front of the output to a file.
fn put<W: Write>(file: &mut W, out: &[u8], count: usize) -> Result<(), Failure> {
    let front = out.get(..count).ok_or(Failure::Writing)?;
    file.write_all(front).map_err(|_| Failure::Writing)
}

// What is asked is done; none where nothing more is asked.
fn take_turn(
    rt: &HostRuntime,
    ask: Ask,
    chunk: &mut [u8],
    out: &[u8],
) -> Option<Result<Done, Failure>> {
    match ask {
        Ask::Read => Some(read(&mut rt.stdin(), chunk)),
        Ask::Write(count) => Some(put(&mut rt.stdout(), out, count).map(|()| Done::Wrote)),
        Ask::Say(count) => {
            // where this fails too, nothing is left to say it to
            let _ = put(&mut rt.stderr(), out, count);
            Some(Ok(Done::Said))
        }
        Ask::Stop => None,
    }
}

// Turn after turn; their count is more than any input takes.
fn run(rt: &HostRuntime, chunk: &mut [u8], line: &mut [u8], out: &mut [u8]) {
    let mut work = shelfwork::begin();
    for _ in 0..u64::MAX {
        let Ok(ask) = work.ask else { return };
        let Some(done) = take_turn(rt, ask, chunk, out) else {
            return
        };
        work = shelfwork::go_on(work, done, chunk, line, out);
    }
}

fn main(rt: HostRuntime) {
    let mut chunk = [0u8; 65536];
    let mut line = [0u8; 65664];
    let mut out = [0u8; 65536];
    run(&rt, &mut chunk, &mut line, &mut out);
}
