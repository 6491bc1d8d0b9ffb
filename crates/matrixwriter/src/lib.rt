// Writing a matrix pack into a lent buffer: everything is checked before the first byte is written.
#![tactic(auto)]

ghost use Rattle.verdict.specs.Answers.{written};
ghost use Rattle.verdict.specs.Writing.{WrittenBy};
ghost use Rattle.matrix.specs.Spelling.{bytes_of};
ghost use Rattle.matrixcheck.specs.Given.{meaning_given};
ghost use Rattle.matrixwriter.specs.Writing.{writer_rows};

use crate::put::write_given;
use matrix::Fields;
use matrixcheck::check::check;
use verdict::Refusal;

mod put;

// The pack of these fields, in their mode, deviations, coefficients and marks, where Mode 1's deviations are mapped or not: the count of its bytes,
// or a refusal that leaves `out` as it was.
pub fn write(
    fields: Fields,
    mapped: bool,
    deviations: &[u64],
    coefficients: &[u64],
    marks: &[u8],
    out: &mut [u8],
) -> Result<usize, Refusal>
    ensures { WrittenBy (writer_rows mapped fields deviations.now coefficients.now marks.now out.old) (bytes_of (meaning_given fields deviations.now coefficients.now marks.now)) out.old 0 (written result) out.new }
{
    let sent = check(fields, mapped, deviations, coefficients, marks)?;
    write_given(fields, sent, deviations, coefficients, marks, out)
}
