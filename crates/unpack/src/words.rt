// The words of a whole pack, one after the other: deviations, then coefficients by their marks.
ghost use Rattle.std.specs.Prelude.{◌≡◌, false, cond, ◌+◌, ◌*◌, ◌≤◌, ◌<◌, length as count, drop, replicate, get_or, eqb};
ghost use Rattle.word.specs.Bytes.{word_at};
ghost use Rattle.word.specs.Many.{words_in};
ghost use Rattle.verdict.specs.declared.Verdict.TheVariants.{Complete};
ghost use Rattle.verdict.specs.Answers.{said};
ghost use Rattle.matrix.specs.Meaning.{pairs, nought};
ghost use Rattle.matrix.specs.Header.{header_bytes, words_from};
ghost use Rattle.unpack.specs.Unpacking.{UnpackedFor};
ghost use Rattle.verdict.specs.Lent.{over};
ghost use Rattle.matrix.specs.Spelling.{meaning_in};
ghost use Rattle.unpack.specs.Found.{meaning_found};

use crate::pack::Pack;
use counts::{header_bytes, mark_of, pairs_of};
use matrix::Fields;
use verdict::{Reason, Stop};
use word::bytes::{any_word_of, word_of};
use word::many::read_all;

// The word there if its mark is 1, else the nought.
pub(crate) fn word_or(bytes: &[u8], place: usize, length: usize, mark: u8, none: u64) -> u64
    requires { (length ≤ 8) × (place + mark * length ≤ count bytes.now) }
    ensures { result ≡ cond (eqb mark 0) none (word_at bytes.now place length) }
{
    if mark == 0 {
        return none;
    }
    word_of(&bytes[place..place + length])
}

// The word there if its mark is 1, else the nought, where the length is not written out at the call.
pub(crate) fn any_word_or(bytes: &[u8], place: usize, length: usize, mark: u8, none: u64) -> u64
    requires { (length ≤ 8) × (place + mark * length ≤ count bytes.now) }
    ensures { result ≡ cond (eqb mark 0) none (word_at bytes.now place length) }
{
    if mark != 0 {
        return any_word_of(&bytes[place..place + length]);
    }
    none
}

// The nought of the fields' coefficients.
pub(crate) fn nought_of(f: Fields) -> u64
    requires { f.clen ≤ 8 }
    ensures { result ≡ nought f }
{
    if !f.cf {
        return 0;
    }
    if f.clen == 0 {
        return 0;
    }
    1 << (8 * f.clen - 2)
}

// So many words of a length, from a place on, over the first entries of a list.
fn fill_words(bytes: &[u8], place: usize, length: usize, number: usize, out: &mut [u64])
    requires { (length ≤ 8) × ((place + number * length ≤ count bytes.now) × (number ≤ count out.old)) }
    ensures { out.new ≡ over (words_in length number (drop place bytes.now)) out.old }
{
    let end = place + number * length;
    read_all(&bytes[place..end], length, &mut out[..number]).unwrap();
}

// The same mark over the first entries of a list.
pub(crate) fn fill_marks(marks: &mut [u8], number: usize, mark: u8)
    requires { number ≤ count marks.old }
    ensures { marks.new ≡ over (replicate number mark) marks.old }
{
    marks[..number].fill(mark);
}

// The coefficients of a full matrix, which are all sent or have no bytes.
fn fill_all(pack: Pack, coefficients: &mut [u64], marks: &mut [u8])
    requires { (pairs pack.found.fields.n ≤ count coefficients.old) × (pairs pack.found.fields.n ≤ count marks.old) × (pack.found.fields.cs ≡ false) }
    ensures { (coefficients.new ≡ over (meaning_found pack.entry.bytes.now pack.entry.found).coefficients coefficients.old) × (marks.new ≡ over (meaning_found pack.entry.bytes.now pack.entry.found).marks marks.old) }
{
    let f = pack.found.fields;
    let number = pairs_of(f.n);
    fill_words(
        pack.bytes,
        pack.found.words + f.n * f.slen,
        f.clen,
        number,
        coefficients,
    );
    fill_marks(marks, number, mark_of(f.clen));
}

// The coefficients of a sparse matrix, of so many bytes each, by their bits.
fn fill_sent(pack: Pack, length: usize, coefficients: &mut [u64], marks: &mut [u8])
    requires { (length ≡ pack.found.fields.clen) × (pairs pack.found.fields.n ≤ count coefficients.old) × (pairs pack.found.fields.n ≤ count marks.old) }
    ensures { (coefficients.new ≡ over (meaning_found pack.entry.bytes.now pack.entry.found).coefficients coefficients.old) × (marks.new ≡ over (meaning_found pack.entry.bytes.now pack.entry.found).marks marks.old) }
{
    let f = pack.found.fields;
    let count = pairs_of(f.n);
    let none = nought_of(f);
    let start = header_bytes(f);
    let mut place = pack.found.words + f.n * f.slen;
    for pair in 0..count {
        let mark = pack.mark_at(start, pair);
        marks[pair] = mark;
        coefficients[pair] = word_or(pack.bytes, place, length, mark, none);
        place += usize::from(mark) * length;
    }
}

// Each length is a loop of its own to the compiler.
fn sent_by_length(pack: Pack, length: usize, coefficients: &mut [u64], marks: &mut [u8])
    requires { (length ≡ pack.found.fields.clen) × (pairs pack.found.fields.n ≤ count coefficients.old) × (pairs pack.found.fields.n ≤ count marks.old) }
    ensures { (coefficients.new ≡ over (meaning_found pack.entry.bytes.now pack.entry.found).coefficients coefficients.old) × (marks.new ≡ over (meaning_found pack.entry.bytes.now pack.entry.found).marks marks.old) }
{
    match length {
        1 => fill_sent(pack, 1, coefficients, marks),
        2 => fill_sent(pack, 2, coefficients, marks),
        3 => fill_sent(pack, 3, coefficients, marks),
        4 => fill_sent(pack, 4, coefficients, marks),
        5 => fill_sent(pack, 5, coefficients, marks),
        6 => fill_sent(pack, 6, coefficients, marks),
        7 => fill_sent(pack, 7, coefficients, marks),
        8 => fill_sent(pack, 8, coefficients, marks),
        _ => fill_sent(pack, length, coefficients, marks),
    }
}

// Unpacks a whole pack, where there is room.
pub(crate) fn unpack_found(
    pack: Pack,
    deviations: &mut [u64],
    coefficients: &mut [u64],
    marks: &mut [u8],
) -> Result<usize, Stop>
    ensures { UnpackedFor (Complete pack.entry.found.length) (meaning_found pack.entry.bytes.now pack.entry.found) deviations.old coefficients.old marks.old (said result) deviations.new coefficients.new marks.new }
{
    let n = pack.found.fields.n;
    let count = pairs_of(n);
    if deviations.len() < n || coefficients.len() < count || marks.len() < count {
        return Err(Stop::Refused(Reason::SmallBuffer.at(0)));
    }
    fill_words(
        pack.bytes,
        pack.found.words,
        pack.found.fields.slen,
        n,
        deviations,
    );
    if pack.found.fields.cs {
        sent_by_length(pack, pack.found.fields.clen, coefficients, marks);
    } else {
        fill_all(pack, coefficients, marks);
    }
    Ok(pack.found.length)
}
