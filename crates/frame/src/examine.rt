// A frame from bytes: the checks in their order, then the pack's own verdict.
ghost use Rattle.std.specs.Prelude.{◌≡◌};
ghost use Rattle.frame.specs.Frame.{kind_of, outcome_of, value_answer, length_answer, answer_of};
ghost use Rattle.berlength.specs.Lengths.{length_of};

use berlength::{NoLength, length_at};
use matrix::Told;
use outcome::{FrameAnswer, Kind, Outcome};
use verdict::{Reason, Verdict};

// The greatest count of a frame's bytes.
pub const LONGEST: usize = 32832;

const MATRIX_KEY: [u8; 16] = [
    0x06, 0x0E, 0x2B, 0x34, 0x02, 0x05, 0x01, 0x01, 0x0E, 0x01, 0x03, 0x03, 0x21, 0x00, 0x00, 0x00,
];

const ARRAY_KEY: [u8; 16] = [
    0x06, 0x0E, 0x2B, 0x34, 0x02, 0x05, 0x01, 0x01, 0x0E, 0x01, 0x03, 0x03, 0x06, 0x00, 0x00, 0x00,
];

// A pack's verdict on a value of `count` bytes.
fn outcome_of(verdict: Verdict, count: usize) -> Outcome
    ensures { result ≡ outcome_of verdict count }
{
    match verdict {
        Verdict::Complete(n) if n == count => Outcome::Ok(n),
        Verdict::Complete(_) => Outcome::Bad(Reason::LengthDiffers.at(0)),
        Verdict::Unfinished(missing) => Outcome::Cut(missing),
        Verdict::Refused(refusal) => Outcome::Bad(refusal),
    }
}

// What the reader of matrices is told: Mode 1 is let in, and its deviations are IEEE.
const TOLD: Told = Told {
    mode1: true,
    mapped: false,
};

// The value of a frame of this kind.
#[inline(always)]
fn from_value(kind: Kind, value: &[u8]) -> FrameAnswer
    ensures { result ≡ value_answer kind value.now }
{
    let verdict = match kind {
        Kind::Matrix => matrixreader::verdict(value, TOLD),
        Kind::Array => arrayreader::verdict(value),
        Kind::Unknown => return Kind::Unknown.refuse(Reason::UnknownKey),
    };
    FrameAnswer {
        kind,
        outcome: outcome_of(verdict, value.len()),
    }
}

// Behind the key.
#[inline(always)]
fn from_length(kind: Kind, bytes: &[u8]) -> FrameAnswer
    ensures { result ≡ length_answer kind (length_of bytes.now) bytes.now }
{
    match length_at(bytes, 0) {
        Err(NoLength::Missing) => kind.refuse(Reason::FrameShort),
        Err(NoLength::WrongForm) => kind.refuse(Reason::LengthForm),
        Ok(length) => {
            if bytes.len() != length.octets + length.value {
                return kind.refuse(Reason::LengthDiffers);
            }
            from_value(kind, &bytes[length.octets..])
        }
    }
}

// The kind that a key names.
#[tactic(auto, using(crate::proofs::Keys::same_bytes))]
fn kind_of(key: &[u8; 16]) -> Kind
    ensures { result ≡ kind_of key.now }
{
    if *key == MATRIX_KEY {
        return Kind::Matrix;
    }
    if *key == ARRAY_KEY {
        return Kind::Array;
    }
    Kind::Unknown
}

// The answer to a frame's bytes.
pub fn examine(bytes: &[u8]) -> FrameAnswer
    ensures { result ≡ answer_of bytes.now }
{
    if LONGEST < bytes.len() {
        return Kind::Unknown.refuse(Reason::FrameLong);
    }
    let Some((key, behind)) = bytes.split_first_chunk::<16>() else {
        return Kind::Unknown.refuse(Reason::FrameShort);
    };
    match kind_of(key) {
        Kind::Matrix => from_length(Kind::Matrix, behind),
        Kind::Array => from_length(Kind::Array, behind),
        Kind::Unknown => Kind::Unknown.refuse(Reason::UnknownKey),
    }
}
