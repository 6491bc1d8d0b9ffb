// A word written in bytes, first byte first, at a place of them.
ghost use Rattle.std.specs.Prelude.{◌≡◌, ◌-◌, ◌≤◌, ◌^◌, length as count, ltb};
ghost use Rattle.verdict.specs.Answers.{written};
ghost use Rattle.verdict.specs.Writing.{put};
ghost use Rattle.word.specs.Digits.{digits};
ghost use Rattle.word.specs.Bytes.{Written};

use verdict::{Reason, Refusal, from_place};

// Whether a word fits in so many bytes: each does in eight.
pub(crate) fn fits(word: u64, length: usize) -> bool
    ensures { result ≡ ltb word (256 ^ length) }
{
    8 <= length || word >> (8 * length) == 0
}

// The word's bytes, the last one first, at a place with room for them.
pub(crate) fn put_at(out: &mut [u8], place: usize, length: usize, word: u64)
    requires { length ≤ count out.old - place }
    ensures { out.new ≡ put out.old place (digits 256 length word) }
{
    let mut rest = word;
    for i in (0..length).rev() {
        out[place + i] = (rest % 256) as u8;
        rest /= 256;
    }
}

// A word written in `length` bytes at a place: the count of bytes, or a refusal that leaves `out` as it was.
pub fn write_at(out: &mut [u8], place: usize, length: usize, word: u64) -> Result<usize, Refusal>
    ensures { Written out.old place length word (written result) out.new }
{
    if 8 < length {
        return Err(Reason::ValueLength.at(0));
    }
    if !fits(word, length) {
        return Err(Reason::ValueRange.at(0));
    }
    if from_place(out.len(), place) < length {
        return Err(Reason::SmallBuffer.at(0));
    }
    put_at(out, place, length, word);
    Ok(length)
}
