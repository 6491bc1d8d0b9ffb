// Writing an array pack into a lent buffer: everything is judged before the first byte is written.
#![tactic(auto)]

ghost use Rattle.verdict.specs.Answers.{written};
ghost use Rattle.verdict.specs.Writing.{WrittenBy};
ghost use Rattle.array.specs.Spelling.{bytes_of};
ghost use Rattle.arraywriter.specs.Given.{meaning_given, writer_rows};

use crate::check::check;
use crate::put::write_given;
use verdict::Refusal;

mod check;
mod put;

// The pack of these sizes, this element size and this array: the count of its bytes, or a refusal that leaves `out` as it was.
pub fn write(
    sizes: &[usize],
    element: usize,
    array: &[u8],
    out: &mut [u8],
) -> Result<usize, Refusal>
    ensures { WrittenBy (writer_rows sizes.now element array.now out.old) (bytes_of (meaning_given sizes.now element array.now)) out.old 0 (written result) out.new }
{
    check(sizes, element, array)?;
    write_given(sizes, element, array, out)
}
