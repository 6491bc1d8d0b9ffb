// A line's text in a buffer of its own, written from its end.
ghost use Rattle.std.specs.Prelude.{◌≡◌, ℕ, ◌+◌, ◌≤◌, List, [], ◌∷◌, ◌++◌, length, drop};
ghost use Rattle.verdict.specs.Answers.{written};
ghost use Rattle.text.specs.Text.{decimal};
ghost use Rattle.text.specs.Writing.{room, WrittenText};

use crate::ROOM;
use itoa::write_digits;
use std::marker::Model;
use verdict::{Reason, Refusal};

// The text ends where the bytes end.
#[derive(Drop)]
pub(crate) struct Line {
    bytes: [u8; ROOM],
    start: usize,
}

impl Model for Line {
    ghost Value = { List ℕ };

    ghost view = { λ line. drop line.start line.bytes };

    ghost invariant = { λ line. line.start ≤ 80 };
}

impl Line {
    // LF alone.
    pub(crate) fn new() -> Line
        ensures { result ≡ 10 ∷ [] }
    {
        Line {
            bytes: [b'\n'; ROOM],
            start: ROOM - 1,
        }
    }

    // A text in front of it.
    pub(crate) fn put(&mut self, text: &[u8])
        requires { length text.now + length self.old ≤ room }
        ensures { (self.new ≡ text.now ++ self.old) × (length self.new ≡ length text.now + length self.old) }
    {
        let end = self.start;
        self.start -= text.len();
        self.bytes[self.start..end].copy_from_slice(text);
    }

    // A number's digits in front of it.
    pub(crate) fn put_number(&mut self, n: u64)
        requires { 20 + length self.old ≤ room }
        ensures { (self.new ≡ decimal n ++ self.old) × (length self.new ≤ 20 + length self.old) }
    {
        self.start = write_digits(n, &mut self.bytes, self.start);
    }

    pub(crate) fn text(&self) -> &[u8]
        ensures { result.now ≡ self.now }
    {
        &self.bytes[self.start..]
    }
}

// Writes a text at a place: the count of its bytes, or 13 where it has no room.
pub(crate) fn write(text: &[u8], out: &mut [u8], place: usize) -> Result<usize, Refusal>
    ensures { WrittenText text.now out.old place (written result) out.new }
{
    let count = text.len();
    if out.len() < count || out.len() - count < place {
        return Err(Reason::SmallBuffer.at(0));
    }
    out[place..place + count].copy_from_slice(text);
    Ok(count)
}
