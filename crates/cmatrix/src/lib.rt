// What C calls of matrix packs: each answer packed into one number, each slice a pointer and a count. The number `format` states what Mode 1's
// deviations are, 0 IEEE or 1 mapped; any other is 14.

#![tactic(auto)]

ghost use Rattle.std.specs.Prelude.{◌≡◌};
ghost use Rattle.verdict.specs.Answers.{said, written};
ghost use Rattle.verdict.specs.Numbers.{packed_of};
ghost use Rattle.listing.specs.Packed.{PackedBy};
ghost use Rattle.cmatrix.specs.Format.{verdict_by, UnpackedUnder, ExpandedUnder};
ghost use Rattle.cmatrix.specs.Fields.{FieldsBy};
ghost use Rattle.cmatrix.specs.Inside.{told_for};
ghost use Rattle.cmatrix.specs.Writing.{MatrixWritten};

use crate::fields::{field_numbers, fields_given};
use listing::list;
use matrix::Told;
use matrixreader::read;
use verdict::{Reason, Refusal, Stop, Verdict};

mod fields;

// What a format tells the reader, or the refusal of a number that states none.
fn told_by(format: usize) -> Result<Told, Refusal>
    ensures { result ≡ told_for format }
{
    if 1 < format {
        return Err(Reason::Disagree.at(0));
    }
    Ok(Told {
        mode1: true,
        mapped: format == 1,
    })
}

// The verdict on a string of bytes as a matrix pack.
pub fn matrix_verdict(bytes: &[u8], format: usize) -> u64
    ensures { result ≡ packed_of (verdict_by format bytes.now) }
{
    let Ok(told) = told_by(format) else {
        return u64::from(Verdict::from(Reason::Disagree));
    };
    u64::from(matrixreader::verdict(bytes, told))
}

fn list_fields(bytes: &[u8], format: usize, fields: &mut [usize]) -> Result<usize, Stop>
    ensures { FieldsBy format bytes.now fields.old (said result) fields.new }
{
    let told = told_by(format)?;
    let found = read(bytes, told)?;
    list(Ok(found.length), &field_numbers(found.fields), fields)
}

// N, Cs, Cf, Clen, Sf, Slen and the mode of a matrix pack into seven entries.
pub fn matrix_fields(bytes: &[u8], format: usize, fields: &mut [usize]) -> u64
    ensures { PackedBy (λ answer. FieldsBy format bytes.now fields.old answer fields.new) result }
{
    u64::from(Verdict::from(list_fields(bytes, format, fields)))
}

fn unpack_under(
    bytes: &[u8],
    format: usize,
    deviations: &mut [u64],
    coefficients: &mut [u64],
    marks: &mut [u8],
) -> Result<usize, Stop>
    ensures { UnpackedUnder format bytes.now deviations.old coefficients.old marks.old (said result) deviations.new coefficients.new marks.new }
{
    let told = told_by(format)?;
    unpack::unpack(bytes, told, deviations, coefficients, marks)
}

// N deviation words, M coefficient words and M marks of a matrix pack.
pub fn matrix_unpack(
    bytes: &[u8],
    format: usize,
    deviations: &mut [u64],
    coefficients: &mut [u64],
    marks: &mut [u8],
) -> u64
    ensures { PackedBy (λ answer. UnpackedUnder format bytes.now deviations.old coefficients.old marks.old answer deviations.new coefficients.new marks.new) result }
{
    u64::from(Verdict::from(unpack_under(bytes, format, deviations, coefficients, marks)))
}

fn expand_under(
    bytes: &[u8],
    format: usize,
    words: &mut [u64],
    marks: &mut [u8],
) -> Result<usize, Stop>
    ensures { ExpandedUnder format bytes.now words.old marks.old (said result) words.new marks.new }
{
    let told = told_by(format)?;
    unpack::expand(bytes, told, words, marks)
}

// N × N words and marks of a matrix pack, by rows.
pub fn matrix_expand(bytes: &[u8], format: usize, words: &mut [u64], marks: &mut [u8]) -> u64
    ensures { PackedBy (λ answer. ExpandedUnder format bytes.now words.old marks.old answer words.new marks.new) result }
{
    u64::from(Verdict::from(expand_under(bytes, format, words, marks)))
}

fn write_given(
    fields: &[usize],
    format: usize,
    deviations: &[u64],
    coefficients: &[u64],
    marks: &[u8],
    out: &mut [u8],
) -> Result<usize, Refusal>
    ensures { MatrixWritten format fields.now deviations.now coefficients.now marks.now out.old (written result) out.new }
{
    let told = told_by(format)?;
    let given = fields_given(fields)?;
    matrixwriter::write(given, told.mapped, deviations, coefficients, marks, out)
}

// The matrix pack of seven fields, deviations, coefficients and marks.
pub fn matrix_write(
    fields: &[usize],
    format: usize,
    deviations: &[u64],
    coefficients: &[u64],
    marks: &[u8],
    out: &mut [u8],
) -> u64
    ensures { PackedBy (λ answer. MatrixWritten format fields.now deviations.now coefficients.now marks.now out.old answer out.new) result }
{
    let answer = write_given(fields, format, deviations, coefficients, marks, out);
    u64::from(Verdict::from(answer))
}
