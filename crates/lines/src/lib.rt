// Lines from the characters of an input that comes in chunks: the open line is held in a lent line buffer.
#![tactic(auto)]

ghost use Rattle.std.specs.Prelude.{◌≡◌, ◌≤◌, length};
ghost use Rattle.lines.specs.Taking.{longest_line, piece_of, kept_all, held_all, TakenBy};

use memchr::memchr;
use verdict::{Reason, Refusal};

// The greatest count of a line's characters, which a line buffer holds.
pub const LINE: usize = 65664;

// How many of the open line's characters are held now, more than `LINE` where it ran over, and how many were taken.
#[derive(Clone, Copy, PartialEq, Eq)]
pub struct Taken {
    pub held: usize,
    pub count: usize,
}

// The place of the first LF, or the chunk's end.
fn piece_end(chunk: &[u8]) -> usize
    ensures { result ≡ length (piece_of chunk.now) }
{
    memchr(b'\n', chunk).unwrap_or(chunk.len())
}

// How many characters are held with `count` more.
fn held_with(held: usize, count: usize) -> usize
    ensures { result ≡ held_all held count }
{
    if count == 0 {
        return held;
    }
    held.saturating_add(count).min(LINE + 1)
}

// Keeps a piece of the chunk behind what is held.
fn keep(line: &mut [u8], held: usize, piece: &[u8])
    requires { longest_line ≤ length line.old }
    ensures { line.new ≡ kept_all line.old held piece.now }
{
    if LINE <= held {
        return;
    }
    let count = piece.len().min(LINE - held);
    line[held..held + count].copy_from_slice(&piece[..count]);
}

// Takes the characters of the chunk before its first LF, all where it has none, and keeps them in the line buffer behind those that are held; or 13.
pub fn take_piece(held: usize, chunk: &[u8], line: &mut [u8]) -> Result<Taken, Refusal>
    ensures { TakenBy held chunk.now line.old result line.new }
{
    if line.len() < LINE {
        return Err(Reason::SmallBuffer.at(0));
    }
    let count = piece_end(chunk);
    keep(line, held, &chunk[..count]);
    Ok(Taken {
        held: held_with(held, count),
        count,
    })
}
