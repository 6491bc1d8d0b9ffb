// The cells of the expanded matrix: deviations on the diagonal, each coefficient at both of its places.
ghost use Rattle.std.specs.Prelude.{◌+◌, ◌<◌, length as count, set, ◌≡◌, false};
ghost use Rattle.verdict.specs.declared.Verdict.TheVariants.{Complete};
ghost use Rattle.unpack.specs.Unpacking.{ExpandedFor};
ghost use Rattle.unpack.specs.Found.{meaning_found};
ghost use Rattle.unpack.specs.Cells.{diagonal, of_row, of_rows, Cells, Grid, At, Room, RowFrom, FullRowFrom, FullFrom};
ghost use Rattle.verdict.specs.Lent.{over};
ghost use Rattle.verdict.specs.Answers.{said};
ghost use Rattle.matrix.specs.Expanded.{cell_word, expanded_words, expanded_marks};

use crate::pack::Pack;
use crate::words::{any_word_or, fill_marks, nought_of};
use counts::{header_bytes, mark_of};
use verdict::{Reason, Stop};
use word::bytes::word_of;

// Where the coefficients have got to: the place of the next one, and its pair.
#[derive(Clone, Copy, PartialEq, Eq)]
pub(crate) struct Next {
    pub place: usize,
    pub pair: usize,
}

// The diagonal, of deviations that have so many bytes each.
fn fill_diagonal(pack: Pack, length: usize, words: &mut [u64], marks: &mut [u8])
    requires { (length ≡ pack.found.fields.slen) × Room (meaning_found pack.bytes.now pack.found) words.old marks.old }
    ensures { Grid (meaning_found pack.entry.bytes.now pack.entry.found) (diagonal pack.entry.found.fields.n) words.old marks.old words.new marks.new }
{
    let f = pack.found.fields;
    let n = f.n;
    let mark = mark_of(length);
    let mut place = pack.found.words;
    for i in 0..f.n {
        let cell = i * n + i;
        words[cell] = word_of(&pack.bytes[place..place + length]);
        marks[cell] = mark;
        place += length;
    }
}

// Each length is a loop of its own to the compiler.
fn diagonal_by_length(pack: Pack, length: usize, words: &mut [u64], marks: &mut [u8])
    requires { (length ≡ pack.found.fields.slen) × Room (meaning_found pack.bytes.now pack.found) words.old marks.old }
    ensures { Grid (meaning_found pack.entry.bytes.now pack.entry.found) (diagonal pack.entry.found.fields.n) words.old marks.old words.new marks.new }
{
    match length {
        1 => fill_diagonal(pack, 1, words, marks),
        2 => fill_diagonal(pack, 2, words, marks),
        3 => fill_diagonal(pack, 3, words, marks),
        4 => fill_diagonal(pack, 4, words, marks),
        5 => fill_diagonal(pack, 5, words, marks),
        6 => fill_diagonal(pack, 6, words, marks),
        7 => fill_diagonal(pack, 7, words, marks),
        8 => fill_diagonal(pack, 8, words, marks),
        _ => fill_diagonal(pack, length, words, marks),
    }
}

// The word and the mark of a pair, at both of its places.
fn put_pair(words: &mut [u64], marks: &mut [u8], upper: usize, lower: usize, word: u64, mark: u8)
    requires { ((upper < count words.old) × (lower < count words.old)) × ((upper < count marks.old) × (lower < count marks.old)) }
    ensures { (words.new ≡ set (set words.old upper word) lower word) × (marks.new ≡ set (set marks.old upper mark) lower mark) }
{
    words[upper] = word;
    words[lower] = word;
    marks[upper] = mark;
    marks[lower] = mark;
}

// The pairs of one row of a sparse matrix, whose first coefficient is the next.
fn fill_sparse_row(
    pack: Pack,
    none: u64,
    row: usize,
    next: Next,
    words: &mut [u64],
    marks: &mut [u8],
) -> Next
    requires { RowFrom pack.bytes.now pack.found none row next words.old marks.old }
    ensures at { At (meaning_found pack.entry.bytes.now pack.entry.found) pack.entry.found (row + 1) (row + 2) result }
    ensures grid { Grid (meaning_found pack.entry.bytes.now pack.entry.found) (of_row row pack.entry.found.fields.n) words.old marks.old words.new marks.new }
{
    let f = pack.found.fields;
    let n = f.n;
    let length = f.clen;
    let start = header_bytes(f);
    let mut place = next.place;
    let mut pair = next.pair;
    for column in row + 1..n {
        let mark = pack.mark_at(start, pair);
        let word = any_word_or(pack.bytes, place, length, mark, none);
        put_pair(words, marks, row * n + column, column * n + row, word, mark);
        place += usize::from(mark) * length;
        pair += 1;
    }
    Next { place, pair }
}

// The pairs of all rows of a sparse matrix.
fn fill_sparse(pack: Pack, words: &mut [u64], marks: &mut [u8])
    requires { Room (meaning_found pack.bytes.now pack.found) words.old marks.old }
    ensures { Grid (meaning_found pack.entry.bytes.now pack.entry.found) (of_rows pack.entry.found.fields.n) words.old marks.old words.new marks.new }
{
    let f = pack.found.fields;
    let none = nought_of(f);
    let mut next = Next {
        place: pack.found.words + f.n * f.slen,
        pair: 0,
    };
    for row in 0..f.n {
        next = fill_sparse_row(pack, none, row, next, words, marks);
    }
}

// The words of one row of a full matrix, whose coefficients have so many bytes each and stand from a place on.
fn fill_full_row(pack: Pack, length: usize, row: usize, first: usize, words: &mut [u64])
    requires { FullRowFrom pack.bytes.now pack.found length row first words.old }
    ensures { Cells pack.entry.found.fields.n (cell_word (meaning_found pack.entry.bytes.now pack.entry.found)) (of_row row pack.entry.found.fields.n) words.old words.new }
{
    let n = pack.found.fields.n;
    let mut at = first;
    for column in row + 1..n {
        let word = word_of(&pack.bytes[at..at + length]);
        words[row * n + column] = word;
        words[column * n + row] = word;
        at += length;
    }
}

// And of all its rows.
fn fill_full(pack: Pack, length: usize, words: &mut [u64])
    requires { FullFrom pack.bytes.now pack.found length words.old }
    ensures { Cells pack.entry.found.fields.n (cell_word (meaning_found pack.entry.bytes.now pack.entry.found)) (of_rows pack.entry.found.fields.n) words.old words.new }
{
    let f = pack.found.fields;
    let mut place = pack.found.words + f.n * f.slen;
    for row in 0..f.n {
        fill_full_row(pack, length, row, place, words);
        place += (f.n - row - 1) * length;
    }
}

// Each length is a loop of its own to the compiler.
fn full_by_length(pack: Pack, length: usize, words: &mut [u64])
    requires { FullFrom pack.bytes.now pack.found length words.old }
    ensures { Cells pack.entry.found.fields.n (cell_word (meaning_found pack.entry.bytes.now pack.entry.found)) (of_rows pack.entry.found.fields.n) words.old words.new }
{
    match length {
        1 => fill_full(pack, 1, words),
        2 => fill_full(pack, 2, words),
        3 => fill_full(pack, 3, words),
        4 => fill_full(pack, 4, words),
        5 => fill_full(pack, 5, words),
        6 => fill_full(pack, 6, words),
        7 => fill_full(pack, 7, words),
        8 => fill_full(pack, 8, words),
        _ => fill_full(pack, length, words),
    }
}

// A full matrix: the mark that its pairs share over all cells, then the diagonal, then the words of the pairs.
fn expand_full(pack: Pack, words: &mut [u64], marks: &mut [u8])
    requires { Room (meaning_found pack.bytes.now pack.found) words.old marks.old × (pack.found.fields.cs ≡ false) }
    ensures { (words.new ≡ over (expanded_words (meaning_found pack.entry.bytes.now pack.entry.found)) words.old) × (marks.new ≡ over (expanded_marks (meaning_found pack.entry.bytes.now pack.entry.found)) marks.old) }
{
    let f = pack.found.fields;
    fill_marks(marks, f.n * f.n, mark_of(f.clen));
    diagonal_by_length(pack, f.slen, words, marks);
    full_by_length(pack, f.clen, words);
}

// A sparse matrix: the diagonal, then each pair with its mark.
fn expand_sparse(pack: Pack, words: &mut [u64], marks: &mut [u8])
    requires { Room (meaning_found pack.bytes.now pack.found) words.old marks.old }
    ensures { (words.new ≡ over (expanded_words (meaning_found pack.entry.bytes.now pack.entry.found)) words.old) × (marks.new ≡ over (expanded_marks (meaning_found pack.entry.bytes.now pack.entry.found)) marks.old) }
{
    diagonal_by_length(pack, pack.found.fields.slen, words, marks);
    fill_sparse(pack, words, marks);
}

// Expands a whole pack, where there is room.
pub(crate) fn expand_found(pack: Pack, words: &mut [u64], marks: &mut [u8]) -> Result<usize, Stop>
    ensures { ExpandedFor (Complete pack.entry.found.length) (meaning_found pack.entry.bytes.now pack.entry.found) words.old marks.old (said result) words.new marks.new }
{
    let n = pack.found.fields.n;
    let cells = n * n;
    if words.len() < cells || marks.len() < cells {
        return Err(Stop::Refused(Reason::SmallBuffer.at(0)));
    }
    if pack.found.fields.cs {
        expand_sparse(pack, words, marks);
    } else {
        expand_full(pack, words, marks);
    }
    Ok(pack.found.length)
}
