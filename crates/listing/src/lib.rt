// Numbers listed in a lent list, by the answer for the pack whose they are.
#![tactic(auto)]

ghost use Rattle.verdict.specs.Answers.{said};
ghost use Rattle.listing.specs.Listed.{ListedBy};

use verdict::{Reason, Stop};

// The numbers of a complete pack over the first entries of a list, or 13; any other answer is passed on.
pub fn list(
    answer: Result<usize, Stop>,
    numbers: &[usize],
    out: &mut [usize],
) -> Result<usize, Stop>
    ensures { ListedBy (said answer) numbers.now out.old (said result) out.new }
{
    let length = answer?;
    let count = numbers.len();
    if out.len() < count {
        return Err(Stop::Refused(Reason::SmallBuffer.at(0)));
    }
    out[..count].copy_from_slice(numbers);
    Ok(length)
}
