// The bytes of a lawful pack, put one after the other where there is room.
ghost use Rattle.std.specs.Prelude.{◌≡◌, true, false, ◌++◌, ℕ, ◌+◌, ◌*◌, ◌^◌, ◌≤◌, ◌<◌, min, length as count, take, drop, replicate, get_or};
ghost use Rattle.verdict.specs.Answers.{written};
ghost use Rattle.verdict.specs.Writing.{put, room_rows, WrittenBy};
ghost use Rattle.word.specs.Digits.{digits, value_of};
ghost use Rattle.matrix.specs.Meaning.{pairs, sum, LawfulFields, Lawful};
ghost use Rattle.matrix.specs.Spelling.{packed, spelled, bytes_of};
ghost use Rattle.matrix.specs.Header.{header_of, header_bytes, vector_bytes};
ghost use Rattle.matrixcheck.specs.Given.{sent_words, deviation_marks, meaning_given};
ghost use Rattle.matrixcheck.specs.Checking.{Enough};
ghost use Rattle.matrixwriter.specs.Sending.{LawfulGiven, Sendable, DeviationsFit};

use counts::{bit_of, header_bytes, pairs_of, vector_bytes};
use matrix::Fields;
use verdict::{Reason, Refusal};
use word::bytes::byte_at;
use wordwriter::bytes::write_at;
use wordwriter::many::write_all;

// A word in so many bytes at a place, if its mark is 1.
fn put_sent(out: &mut [u8], place: usize, length: usize, mark: u8, word: u64)
    requires { (length ≤ 8) × ((mark ≤ 1) × ((mark ≡ 1 → word < 256 ^ length) × (place + mark * length ≤ count out.old))) }
    ensures { out.new ≡ put out.old place (digits 256 (mark * length) word) }
{
    if mark == 0 {
        return;
    }
    let _ = write_at(out, place, length, word);
}

// The size, and one control byte of Mode 1 or two of Mode 2.
fn put_header(f: Fields, out: &mut [u8])
    requires { LawfulFields f × (header_bytes f ≤ count out.old) }
    ensures { out.new ≡ put out.old 0 (header_of f) }
{
    out[0] = f.n as u8;
    if f.mode1 {
        let control = f.slen * 16 + (bit_of(f.cs) * 8 + f.clen);
        out[1] = control as u8;
        return;
    }
    let coefficients = 128 + (bit_of(f.cs) * 32 + (bit_of(f.cf) * 16 + f.clen));
    let deviations = bit_of(f.sf) * 16 + f.slen;
    out[1] = coefficients as u8;
    out[2] = deviations as u8;
}

// Eight marks from a pair on as a byte, the first in its top bit; 0 where there are no more.
fn vector_byte(marks: &[u8], pair: usize) -> u8
    requires { (pair ≤ 2048) × ((i : ℕ) → get_or marks.now i 0 ≤ 1) }
    ensures { result ≡ value_of 2 (take 8 (drop pair marks.now ++ replicate 8 0)) }
{
    let mut value: usize = 0;
    for i in 0..8 {
        value = value * 2 + byte_at(marks, pair + i);
    }
    value as u8
}

// So many bytes of the bit vector at a place.
fn put_vector(out: &mut [u8], place: usize, marks: &[u8], bytes: usize)
    requires { (bytes ≤ 252) × ((place + bytes ≤ count out.old) × ((i : ℕ) → get_or marks.now i 0 ≤ 1)) }
    ensures { out.new ≡ put out.old place (packed bytes marks.now) }
{
    for i in 0..bytes {
        out[place + i] = vector_byte(marks, 8 * i);
    }
}

// Words of a length, one after the other.
fn put_words(out: &mut [u8], place: usize, length: usize, words: &[u64])
    requires { (length ≤ 8) × ((place + count words.now * length ≤ count out.old) × ((i : ℕ) → i < count words.now → get_or words.now i 0 < 256 ^ length)) }
    ensures { out.new ≡ put out.old place (spelled length (replicate (count words.now) 1) words.now) }
{
    let end = place + words.len() * length;
    let _ = write_all(&mut out[place..end], length, words);
}

// Those of the words whose mark is 1, one after the other.
fn put_sent_words(out: &mut [u8], place: usize, length: usize, words: &[u64], marks: &[u8])
    requires { Sendable length marks.now words.now × ((count words.now ≡ count marks.now) × (place + sum marks.now * length ≤ count out.old)) }
    ensures { out.new ≡ put out.old place (spelled length marks.now words.now) }
{
    let mut at = place;
    for (i, &mark) in marks.iter().enumerate() {
        put_sent(out, at, length, mark, words[i]);
        at += mark as usize * length;
    }
}

// The coefficients: those whose mark is 1 if sparse, else all, or none has bytes.
fn put_coefficients(
    sparse: bool,
    out: &mut [u8],
    place: usize,
    length: usize,
    words: &[u64],
    marks: &[u8],
)
    requires { Sendable length marks.now words.now × ((count words.now ≡ count marks.now) × ((place + sum marks.now * length ≤ count out.old) × (sparse ≡ false → (i : ℕ) → i < count marks.now → get_or marks.now i 0 ≡ min 1 length))) }
    ensures { out.new ≡ put out.old place (spelled length marks.now words.now) }
{
    if sparse {
        put_sent_words(out, place, length, words, marks);
        return;
    }
    if length == 0 {
        return;
    }
    put_words(out, place, length, words);
}

// The deviations, if they have bytes.
fn put_deviations(f: Fields, deviations: &[u64], out: &mut [u8], place: usize)
    requires { DeviationsFit f deviations.now × (place + f.n * f.slen ≤ count out.old) }
    ensures { out.new ≡ put out.old place (spelled f.slen (replicate f.n 1) (sent_words 0 (deviation_marks f) deviations.now)) }
{
    if f.slen == 0 {
        return;
    }
    put_words(out, place, f.slen, &deviations[..f.n]);
}

// How many bytes a pack takes of which so many coefficients are sent.
fn length_of(f: Fields, sent: usize) -> usize
    requires { LawfulFields f × (sent ≤ 2016) }
    ensures { result ≡ header_bytes f + (vector_bytes f + (f.n * f.slen + sent * f.clen)) }
{
    header_bytes(f) + (vector_bytes(f) + (f.n * f.slen + sent * f.clen))
}

// The parts of a lawful pack, one behind the other.
fn put_given(f: Fields, deviations: &[u64], coefficients: &[u64], marks: &[u8], out: &mut [u8])
    requires { Enough f deviations.now coefficients.now marks.now × (Lawful (meaning_given f deviations.now coefficients.now marks.now) × (count (bytes_of (meaning_given f deviations.now coefficients.now marks.now)) ≤ count out.old)) }
    ensures { out.new ≡ put out.old 0 (bytes_of (meaning_given f deviations.now coefficients.now marks.now)) }
{
    let pairs = pairs_of(f.n);
    let header = header_bytes(f);
    let vector = vector_bytes(f);
    let first = header + vector;
    let second = first + f.n * f.slen;
    put_header(f, out);
    put_vector(out, header, &marks[..pairs], vector);
    put_deviations(f, deviations, out, first);
    put_coefficients(
        f.cs,
        out,
        second,
        f.clen,
        &coefficients[..pairs],
        &marks[..pairs],
    );
}

// Writes what is lawful, where there is room.
pub(crate) fn write_given(
    f: Fields,
    sent: usize,
    deviations: &[u64],
    coefficients: &[u64],
    marks: &[u8],
    out: &mut [u8],
) -> Result<usize, Refusal>
    requires { LawfulGiven f sent deviations.now coefficients.now marks.now }
    ensures { WrittenBy (room_rows (count (bytes_of (meaning_given f deviations.now coefficients.now marks.now))) (count out.old)) (bytes_of (meaning_given f deviations.now coefficients.now marks.now)) out.old 0 (written result) out.new }
{
    let length = length_of(f, sent);
    if out.len() < length {
        return Err(Reason::SmallBuffer.at(0));
    }
    put_given(f, deviations, coefficients, marks, out);
    Ok(length)
}
