// What C calls of frames: the kind in a lent byte, the answer packed into one number.
#![tactic(auto)]

ghost use Rattle.std.specs.Prelude.{◌≡◌};
ghost use Rattle.cframe.specs.Said.{said_of, FrameSaid};

use frame::examine::examine;
use outcome::Outcome;
use verdict::Verdict;

// What came of a frame, as a verdict.
fn said(outcome: Outcome) -> Verdict
    ensures { result ≡ said_of outcome }
{
    match outcome {
        Outcome::Ok(length) => Verdict::Complete(length),
        Outcome::Cut(missing) => Verdict::Unfinished(missing),
        Outcome::Bad(refusal) => Verdict::Refused(refusal),
        Outcome::Open => Verdict::Unfinished(0),
    }
}

// The answer to a frame's bytes, and the letter of its kind, which is told whatever the answer is.
pub fn frame_verdict(bytes: &[u8], kind: &mut u8) -> u64
    ensures { FrameSaid bytes.now result kind.new }
{
    let answer = examine(bytes);
    *kind = u8::from(answer.kind);
    u64::from(said(answer.outcome))
}
