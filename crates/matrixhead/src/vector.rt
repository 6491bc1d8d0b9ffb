// The bit vector of a matrix pack: how many coefficients are sent.
ghost use Rattle.std.specs.Prelude.{◌≡◌, ◌+◌, ◌*◌, ◌≤◌, true, length};
ghost use Rattle.matrix.specs.Meaning.{sum, LawfulFields};
ghost use Rattle.matrix.specs.Header.{header_bytes, vector_bytes, bits};
ghost use Rattle.matrix.specs.Machine.{fewest};
ghost use Rattle.matrixhead.specs.Parts.{SentFrom, ones_in};

use crate::judge::{judge_vector, judged_at};
use counts::{header_bytes, pairs_of, vector_bytes};
use matrix::Fields;
use verdict::Stop;
use word::bytes::byte_at;

fn ones_of_word(word: &[u8; 8]) -> usize
    ensures value { result ≡ sum (bits word.now) }
    ensures bound { result ≤ 64 }
{
    u64::from_be_bytes(*word).count_ones() as usize
}

// How many bits of words of eight bytes are 1.
fn ones_of_words(words: &[[u8; 8]]) -> usize
    requires { length words.now ≤ 31 }
    ensures { result ≡ ones_in words.now }
{
    let mut ones: usize = 0;
    for word in words {
        ones += ones_of_word(word);
    }
    ones
}

// How many bits of bytes are 1, byte by byte.
fn ones_of_bytes(bytes: &[u8]) -> usize
    requires { length bytes.now ≤ 252 }
    ensures { result ≡ sum (bits bytes.now) }
{
    let mut ones: usize = 0;
    for byte in bytes {
        ones += byte.count_ones() as usize;
    }
    ones
}

// How many bits of bytes are 1.
fn ones(bytes: &[u8]) -> usize
    requires { length bytes.now ≤ 252 }
    ensures { result ≡ sum (bits bytes.now) }
{
    let (words, rest) = bytes.as_chunks::<8>();
    ones_of_words(words) + ones_of_bytes(rest)
}

// How many coefficients there are at least where so many ones were seen.
fn fewest_of(f: Fields, sent: usize) -> usize
    ensures { result ≡ fewest f sent }
{
    if f.slen == 0 && sent == 0 {
        return 1;
    }
    sent
}

// The bytes, and the lawful fields of the header that they begin with.
#[derive(Clone, Copy)]
pub(crate) struct Header<'a> {
    pub bytes: &'a [u8],
    pub fields: Fields,
    ghost lawful: { LawfulFields fields },
    ghost within: { header_bytes fields ≤ length bytes.now },
}

impl<'a> Header<'a> {
    // The vector behind the header of sparse coefficients.
    fn from_vector(self) -> Result<usize, Stop>
        requires { self.fields.cs ≡ true }
        ensures { SentFrom self.entry.bytes.now self.entry.fields result }
    {
        let f = self.fields;
        let start = header_bytes(f);
        let count = vector_bytes(f);
        let there = self.bytes.len() - start;
        if there < count {
            let sent = ones(&self.bytes[start..]);
            return Err(Stop::Unfinished(
                count - there + (f.n * f.slen + fewest_of(f, sent) * f.clen),
            ));
        }
        let end = start + count;
        let sent = ones(&self.bytes[start..end]);
        let last = end - 1;
        let unused = count * 8 - pairs_of(f.n);
        judged_at(
            judge_vector(f, sent, byte_at(self.bytes, last), unused),
            last,
        )?;
        Ok(sent)
    }

    // From behind the control bytes to the first word: how many coefficients are sent, or why that is not known.
    pub(crate) fn sent(self) -> Result<usize, Stop>
        ensures { SentFrom self.entry.bytes.now self.entry.fields result }
    {
        if self.fields.cs {
            return self.from_vector();
        }
        if self.fields.clen == 0 {
            return Ok(0);
        }
        Ok(pairs_of(self.fields.n))
    }
}
