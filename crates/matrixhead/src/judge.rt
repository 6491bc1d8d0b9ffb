// Whether a byte keeps the rules of its field: the table of documents 01 and 02, in its order.
ghost use Rattle.std.specs.Prelude.{◌≡◌, ◌≤◌, ◌-◌, ◌*◌, cond, [], ◌∷◌, ◌++◌};
ghost use Rattle.rule.specs.Rules.{allowed};
ghost use Rattle.matrix.specs.Meaning.{pairs, alone};
ghost use Rattle.matrix.specs.Header.{vector_bytes};
ghost use Rattle.matrix.specs.Table.{size_rows, single_rows, coefficient_rows, deviation_rows, control1_rows, control2_rows, empty_row, room_row, formatted, field_rows, vector_rows};
ghost use Rattle.verdict.specs.Judgement.{judgement};
ghost use Rattle.matrixhead.specs.Judging.{allowed_by, judged_at, length_rows, format_rows, presence_rows};

use matrix::Fields;
use verdict::{Reason, Refusal, Stop};

// Whether a format allows a length.
fn allows(mapped: bool, length: usize) -> bool
    ensures { result ≡ allowed mapped length }
{
    if mapped {
        length <= 8
    } else {
        matches!(length, 0 | 2 | 4 | 8)
    }
}

// Whether a flag says mapped of values that have no bytes, in Mode 2.
fn stands_alone(mode1: bool, mapped: bool, length: usize) -> bool
    ensures { result ≡ alone mode1 mapped length }
{
    (mapped & (length == 0)) & !mode1
}

// What was judged of the byte at a place, for a reader.
pub(crate) fn judged_at(judged: Result<(), Reason>, place: usize) -> Result<(), Stop>
    ensures { result ≡ judged_at judged place }
{
    judged.map_err(|reason| Stop::Refused(reason.at(place)))
}

pub(crate) fn judge_size(b: usize) -> Result<(), Reason>
    ensures { result ≡ judgement (size_rows b) }
{
    if b == 0 {
        return Err(Reason::Zero);
    }
    if b == 0x80 {
        return Err(Reason::PaddedNumber);
    }
    if 64 < b {
        return Err(Reason::TooLarge);
    }
    Ok(())
}

fn judge_length(mapped: bool, length: usize) -> Result<(), Reason>
    ensures { result ≡ judgement (length_rows mapped length) }
{
    if !allows(mapped, length) {
        return Err(Reason::ValueLength);
    }
    Ok(())
}

// A length and the flag beside it.
fn judge_format(mode1: bool, mapped: bool, length: usize) -> Result<(), Reason>
    ensures { result ≡ judgement (format_rows mode1 mapped length) }
{
    judge_length(mapped, length)?;
    if stands_alone(mode1, mapped, length) {
        return Err(Reason::FormatAlone);
    }
    Ok(())
}

// Sparse coefficients have bytes, and those of one variable have none.
fn judge_presence(f: Fields) -> Result<(), Reason>
    ensures { result ≡ judgement (presence_rows f) }
{
    if f.cs & (f.clen == 0) {
        return Err(Reason::Sparse);
    }
    if (f.n == 1) & (0 < f.clen) {
        return Err(Reason::SizeOne);
    }
    Ok(())
}

fn judge_empty(f: Fields) -> Result<(), Reason>
    ensures { result ≡ judgement (empty_row f ∷ []) }
{
    if (f.slen == 0) & (f.clen == 0) {
        return Err(Reason::Empty);
    }
    Ok(())
}

fn judge_coefficients(f: Fields) -> Result<(), Reason>
    ensures { result ≡ judgement (coefficient_rows f) }
{
    judge_format(f.mode1, f.cf, f.clen)?;
    judge_presence(f)
}

fn judge_deviations(f: Fields) -> Result<(), Reason>
    ensures { result ≡ judgement (deviation_rows f) }
{
    judge_format(f.mode1, f.sf, f.slen)?;
    judge_empty(f)
}

pub(crate) fn judge_control1(f: Fields, b: usize) -> Result<(), Reason>
    ensures { result ≡ judgement (control1_rows f b) }
{
    if b / 128 == 0 {
        return Err(Reason::Mode);
    }
    if b / 64 % 2 == 1 {
        return Err(Reason::Reserved);
    }
    judge_coefficients(f)
}

pub(crate) fn judge_control2(f: Fields, b: usize) -> Result<(), Reason>
    ensures { result ≡ judgement (control2_rows f b) }
{
    if b / 128 == 1 {
        return Err(Reason::Mode);
    }
    if b / 32 % 4 != 0 {
        return Err(Reason::Reserved);
    }
    judge_deviations(f)
}

// Mode 1's control byte, which says these fields.
pub(crate) fn judge_single(f: Fields) -> Result<(), Reason>
    ensures { result ≡ judgement (single_rows f) }
{
    judge_length(f.cf, f.clen)?;
    judge_length(f.sf, f.slen)?;
    judge_presence(f)?;
    judge_empty(f)
}

// A length of fields that a writer is given: Mode 1 has three bits for it.
fn judge_room(f: Fields, length: usize) -> Result<(), Reason>
    ensures { result ≡ judgement (room_row f length ∷ []) }
{
    if f.mode1 & (7 < length) {
        return Err(Reason::ValueLength);
    }
    Ok(())
}

// The deviation format of a mode: Mode 1's is stated.
fn format_in(mode1: bool, mapped: bool, sf: bool) -> bool
    ensures { result ≡ cond mode1 mapped sf }
{
    if mode1 { mapped } else { sf }
}

// The fields in the formats that they are judged by.
fn formatted_of(mapped: bool, f: Fields) -> Fields
    ensures { result ≡ formatted mapped f }
{
    Fields {
        cf: f.mode1 | f.cf,
        sf: format_in(f.mode1, mapped, f.sf),
        ..f
    }
}

// The coefficients' rules and then the deviations'.
fn judge_lengths(f: Fields) -> Result<(), Reason>
    ensures { result ≡ judgement ((room_row f f.clen ∷ coefficient_rows f) ++ (room_row f f.slen ∷ deviation_rows f)) }
{
    judge_room(f, f.clen)?;
    judge_coefficients(f)?;
    judge_room(f, f.slen)?;
    judge_deviations(f)
}

// Fields that a writer is given, by the rules in their order; Mode 1's deviations are mapped or not.
fn judge_given(f: Fields, mapped: bool) -> Result<(), Reason>
    ensures { result ≡ judgement (field_rows mapped f) }
{
    if f.n == 0 {
        return Err(Reason::Zero);
    }
    if 64 < f.n {
        return Err(Reason::TooLarge);
    }
    judge_lengths(formatted_of(mapped, f))
}

// Whether fields that a writer is given keep their rules, or the refusal of the first that is broken.
pub fn judge_fields(f: Fields, mapped: bool) -> Result<(), Refusal>
    ensures { result ≡ allowed_by (judgement (field_rows mapped f)) }
{
    judge_given(f, mapped)?;
    Ok(())
}

// The last byte of a vector with so many unused bits and, in all, so many ones.
pub(crate) fn judge_vector(f: Fields, sent: usize, b: usize, unused: usize) -> Result<(), Reason>
    requires { (unused ≤ 7) × (unused ≡ vector_bytes f * 8 - pairs f.n) }
    ensures { result ≡ judgement (vector_rows f sent b) }
{
    if b % (1 << unused) != 0 {
        return Err(Reason::VectorEnd);
    }
    if (f.slen == 0) & (sent == 0) {
        return Err(Reason::Empty);
    }
    Ok(())
}
