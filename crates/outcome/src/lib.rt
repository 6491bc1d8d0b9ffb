// What is said of a frame: its kind, and what came of it.
#![tactic(auto)]

ghost use Rattle.std.specs.Prelude.{◌≡◌};
ghost use Rattle.outcome.specs.Letters.{letter_of};
ghost use Rattle.outcome.specs.Refusing.{refusing};

use verdict::{Reason, Refusal};

// The kind of pack that a frame's key names.
#[derive(Clone, Copy, PartialEq, Eq)]
pub enum Kind {
    Matrix,
    Array,
    Unknown,
}

// What is said of a frame: a whole pack of so many bytes, one with so many missing, a refusal, or a line that is not closed.
#[derive(Clone, Copy, PartialEq, Eq)]
pub enum Outcome {
    Ok(usize),
    Cut(usize),
    Bad(Refusal),
    Open,
}

// The answer to a frame, or to its line.
#[derive(Clone, Copy, PartialEq, Eq)]
pub struct FrameAnswer {
    pub kind: Kind,
    pub outcome: Outcome,
}

impl Kind {
    // A frame's own refusal.
    pub fn refuse(self, reason: Reason) -> FrameAnswer
        ensures { result ≡ refusing self reason }
    {
        FrameAnswer {
            kind: self,
            outcome: Outcome::Bad(reason.at(0)),
        }
    }
}

// The letter of a kind, in a report line and for C.
impl From<Kind> for u8 {
    ghost from_gives = { λ kind letter. letter ≡ letter_of kind };

    fn from(kind: Kind) -> u8 {
        match kind {
            Kind::Matrix => b'S',
            Kind::Array => b'M',
            Kind::Unknown => b'-',
        }
    }
}
