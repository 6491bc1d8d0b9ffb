// The answer of every reader and writer: why a refusal is given, where, and the verdict on a string of bytes.
#![tactic(auto)]

ghost use Rattle.std.specs.Prelude.{◌≡◌, ◌-◌, min};
ghost use Rattle.verdict.specs.Numbers.{number_of, packed_of};
ghost use Rattle.verdict.specs.Answers.{stopped, said, written};
ghost use Rattle.verdict.specs.Writing.{refusing};
ghost use Rattle.verdict.specs.declared.Stop.TheVariants.{Refused as StopRefused};

// Why bytes or arguments are refused, each under its name in documents 01 and 02.
#[derive(Clone, Copy, PartialEq, Eq)]
pub enum Reason {
    Zero,
    TooLarge,
    PaddedNumber,
    Mode,
    Reserved,
    ValueLength,
    Sparse,
    SizeOne,
    Empty,
    VectorEnd,
    ValueRange,
    Processing,
    SmallBuffer,
    Disagree,
    Index,
    FormatAlone,
    Character,
    UnknownKey,
    LengthForm,
    LengthDiffers,
    FrameShort,
    FrameLong,
}

// A refusal: its reason, and its place counted from 0 at the pack's first byte.
#[derive(Clone, Copy, PartialEq, Eq)]
pub struct Refusal {
    pub reason: Reason,
    pub place: usize,
}

// Why a reader has no whole pack: the fewest missing bytes, or a refusal.
#[derive(Clone, Copy, PartialEq, Eq)]
pub enum Stop {
    Unfinished(usize),
    Refused(Refusal),
}

// What is said of a string of bytes: complete at a length, unfinished by the fewest missing bytes, or refused.
#[derive(Clone, Copy, PartialEq, Eq)]
pub enum Verdict {
    Complete(usize),
    Unfinished(usize),
    Refused(Refusal),
}

impl Reason {
    // The refusal for this reason at a place.
    pub fn at(self, place: usize) -> Refusal
        ensures { result ≡ record { reason = self; place = place } }
    {
        Refusal {
            reason: self,
            place,
        }
    }
}

// A writer's refusal has no place in a pack: its place is 0.
impl From<Reason> for Refusal {
    ghost from_gives = { λ reason refusal. refusal ≡ record { reason = reason; place = 0 } };

    fn from(reason: Reason) -> Refusal {
        reason.at(0)
    }
}

impl From<Refusal> for Stop {
    ghost from_gives = { λ refusal stop. stop ≡ StopRefused refusal };

    fn from(refusal: Refusal) -> Stop {
        Stop::Refused(refusal)
    }
}

// The verdict of a call that is refused before all else.
impl From<Reason> for Verdict {
    ghost from_gives = { λ reason verdict. verdict ≡ refusing reason };

    fn from(reason: Reason) -> Verdict {
        Verdict::Refused(reason.at(0))
    }
}

impl From<Stop> for Verdict {
    ghost from_gives = { λ stop verdict. verdict ≡ stopped stop };

    fn from(stop: Stop) -> Verdict {
        match stop {
            Stop::Unfinished(missing) => Verdict::Unfinished(missing),
            Stop::Refused(refused) => Verdict::Refused(refused),
        }
    }
}

// The verdict of a reader: complete at a length, or why there is no whole pack.
impl From<Result<usize, Stop>> for Verdict {
    ghost from_gives = { λ answer verdict. verdict ≡ said answer };

    fn from(answer: Result<usize, Stop>) -> Verdict {
        match answer {
            Ok(length) => Verdict::Complete(length),
            Err(stop) => Verdict::from(stop),
        }
    }
}

// The verdict of a writer: the count of what it wrote, or its refusal.
impl From<Result<usize, Refusal>> for Verdict {
    ghost from_gives = { λ answer verdict. verdict ≡ written answer };

    fn from(answer: Result<usize, Refusal>) -> Verdict {
        match answer {
            Ok(count) => Verdict::Complete(count),
            Err(refusal) => Verdict::Refused(refusal),
        }
    }
}

// The number of a reason in the tables of documents 01 and 02.
impl From<Reason> for u64 {
    ghost from_gives = { λ reason number. number ≡ number_of reason };

    fn from(reason: Reason) -> u64 {
        match reason {
            Reason::Zero => 1,
            Reason::TooLarge => 2,
            Reason::PaddedNumber => 3,
            Reason::Mode => 4,
            Reason::Reserved => 5,
            Reason::ValueLength => 6,
            Reason::Sparse => 7,
            Reason::SizeOne => 8,
            Reason::Empty => 9,
            Reason::VectorEnd => 10,
            Reason::ValueRange => 11,
            Reason::Processing => 12,
            Reason::SmallBuffer => 13,
            Reason::Disagree => 14,
            Reason::Index => 15,
            Reason::FormatAlone => 16,
            Reason::Character => 20,
            Reason::UnknownKey => 21,
            Reason::LengthForm => 22,
            Reason::LengthDiffers => 23,
            Reason::FrameShort => 24,
            Reason::FrameLong => 25,
        }
    }
}

// The verdict as the one number that C gets.
impl From<Verdict> for u64 {
    ghost from_gives = { λ verdict packed. packed ≡ packed_of verdict };

    fn from(verdict: Verdict) -> u64 {
        match verdict {
            Verdict::Complete(length) => lesser(length, 0xFFFF_FFFF) as u64,
            Verdict::Unfinished(missing) => 0x1_0000_0000 + lesser(missing, 0xFFFF_FFFF) as u64,
            Verdict::Refused(refusal) => {
                let number = u64::from(refusal.reason);
                let place = refusal.place;
                0x2_0000_0000 + number * 0x1_0000 + lesser(place, 0xFFFF) as u64
            }
        }
    }
}

// The lesser of two numbers.
pub fn lesser(a: usize, b: usize) -> usize
    ensures { result ≡ min a b }
{
    a.min(b)
}

// How many entries stand from a place on.
pub fn from_place(whole: usize, place: usize) -> usize
    ensures { result ≡ whole - place }
{
    whole.saturating_sub(place)
}
