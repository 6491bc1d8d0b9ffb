// Unpacking and expanding a matrix pack into lent lists, which change only where the answer is complete.

#![tactic(auto)]

ghost use Rattle.verdict.specs.Answers.{said};
ghost use Rattle.unpack.specs.Unpacking.{UnpackedBy, ExpandedBy};

use crate::cells::expand_found;
use crate::pack::Pack;
use crate::words::unpack_found;
use matrix::Told;
use matrixwalk::found_in;
use verdict::Stop;

mod cells;
mod pack;
mod words;

// Fills N deviation words, M coefficient words and M marks: the pack's length, or why there is no whole pack under what is told, or 13.
pub fn unpack(
    bytes: &[u8],
    told: Told,
    deviations: &mut [u64],
    coefficients: &mut [u64],
    marks: &mut [u8],
) -> Result<usize, Stop>
    ensures { UnpackedBy told bytes.now deviations.old coefficients.old marks.old (said result) deviations.new coefficients.new marks.new }
{
    let found = found_in(bytes, told)?;
    let pack = Pack { bytes, found };
    unpack_found(pack, deviations, coefficients, marks)
}

// Fills N × N words and marks by rows: the pack's length, or why there is no whole pack under what is told, or 13.
pub fn expand(bytes: &[u8], told: Told, words: &mut [u64], marks: &mut [u8]) -> Result<usize, Stop>
    ensures { ExpandedBy told bytes.now words.old marks.old (said result) words.new marks.new }
{
    let found = found_in(bytes, told)?;
    let pack = Pack { bytes, found };
    expand_found(pack, words, marks)
}
