// Many words of one length written over bytes, one after the other, with one check for all; and the bits that words have together.
ghost use Rattle.std.specs.Prelude.{◌≡◌, ◌*◌, ◌^◌, ◌≤◌, length as count};
ghost use Rattle.verdict.specs.Answers.{written};
ghost use Rattle.verdict.specs.Judgement.{judgement};
ghost use Rattle.word.specs.Many.{bytes_for, all_below, gathered, write_rows, WrittenOver};

use crate::bytes::{fits, put_at};
use verdict::{Reason, Refusal};
use word::many::judge;

// All the bits that any of the words has: no word is greater.
pub fn gather(words: &[u64]) -> u64
    ensures { result ≡ gathered words.now }
{
    let mut all: u64 = 0;
    for word in words {
        all |= *word;
    }
    all
}

// Whether each word fits in so many bytes, told by all their bits together.
fn all_fit(words: &[u64], length: usize) -> bool
    ensures { result ≡ all_below (256 ^ length) words.now }
{
    8 <= length || fits(gather(words), length)
}

// 6 and 14 as for reading; 11 for a word too long for its length.
fn judge_words(bytes: usize, words: &[u64], length: usize) -> Result<(), Reason>
    ensures { result ≡ judgement (write_rows length words.now bytes) }
{
    judge(bytes, words.len(), length)?;
    if !all_fit(words, length) {
        return Err(Reason::ValueRange);
    }
    Ok(())
}

// The place is counted along, since a length of 0 makes no parts to walk over.
fn write_each(out: &mut [u8], length: usize, words: &[u64])
    requires { count out.old ≡ count words.now * length }
    ensures { out.new ≡ bytes_for length words.now }
{
    let mut place = 0;
    for word in words {
        put_at(out, place, length, *word);
        place += length;
    }
}

// Each usual length is a loop of its own to the compiler.
fn write_by_length(out: &mut [u8], length: usize, words: &[u64])
    requires { count out.old ≡ count words.now * length }
    ensures { out.new ≡ bytes_for length words.now }
{
    match length {
        2 => write_each(out, 2, words),
        4 => write_each(out, 4, words),
        8 => write_each(out, 8, words),
        _ => write_each(out, length, words),
    }
}

// Words in `length` bytes each, over all of `out`: the count of bytes, or a refusal that leaves `out` as it was.
pub fn write_all(out: &mut [u8], length: usize, words: &[u64]) -> Result<usize, Refusal>
    ensures { WrittenOver out.old length words.now (written result) out.new }
{
    judge_words(out.len(), words, length)?;
    write_by_length(out, length, words);
    Ok(out.len())
}
