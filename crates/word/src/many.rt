// Many words of one length, one after the other, read from bytes with one check for all.
ghost use Rattle.std.specs.Prelude.{◌≡◌, ◌*◌, ◌≤◌, length as count, eqb};
ghost use Rattle.verdict.specs.Answers.{written};
ghost use Rattle.verdict.specs.Judgement.{judgement};
ghost use Rattle.word.specs.Many.{words_in, many_rows, ReadInto};

use crate::bytes::word_in;
use verdict::{Reason, Refusal};

// Whether so many bytes are those of so many words.
fn holds(bytes: usize, words: usize, length: usize) -> bool
    ensures { result ≡ eqb bytes (words * length) }
{
    if length == 0 {
        return bytes == 0;
    }
    (bytes / length == words) & (bytes % length == 0)
}

// 6 above eight bytes, 14 where the bytes are not as many as the words have.
pub fn judge(bytes: usize, words: usize, length: usize) -> Result<(), Reason>
    ensures { result ≡ judgement (many_rows length words bytes) }
{
    if 8 < length {
        return Err(Reason::ValueLength);
    }
    if !holds(bytes, words, length) {
        return Err(Reason::Disagree);
    }
    Ok(())
}

fn read_each(bytes: &[u8], length: usize, out: &mut [u64])
    requires { (length ≤ 8) × (count bytes.now ≡ count out.old * length) }
    ensures { out.new ≡ words_in length (count out.old) bytes.now }
{
    let mut place = 0;
    for word in out.iter_mut() {
        *word = word_in(bytes, place, length);
        place += length;
    }
}

// Each length is a loop of its own to the compiler.
fn read_by_length(bytes: &[u8], length: usize, out: &mut [u64])
    requires { (length ≤ 8) × (count bytes.now ≡ count out.old * length) }
    ensures { out.new ≡ words_in length (count out.old) bytes.now }
{
    match length {
        1 => read_each(bytes, 1, out),
        2 => read_each(bytes, 2, out),
        3 => read_each(bytes, 3, out),
        4 => read_each(bytes, 4, out),
        5 => read_each(bytes, 5, out),
        6 => read_each(bytes, 6, out),
        7 => read_each(bytes, 7, out),
        8 => read_each(bytes, 8, out),
        _ => read_each(bytes, length, out),
    }
}

// As many words of `length` bytes as `out` has entries, from all of `bytes`: their count, or a refusal that leaves `out` as it was.
pub fn read_all(bytes: &[u8], length: usize, out: &mut [u64]) -> Result<usize, Refusal>
    ensures { ReadInto bytes.now length out.old (written result) out.new }
{
    judge(bytes.len(), out.len(), length)?;
    read_by_length(bytes, length, out);
    Ok(out.len())
}
