// A BER length in its shortest form: 00 to 7F; 81 and one byte; 82 and two bytes.
#![tactic(auto)]

ghost use Rattle.std.specs.Prelude.{◌≡◌, drop};
ghost use Rattle.berlength.specs.Lengths.{one_byte, two_bytes, length_of};

use verdict::Reason;

// A length's value, and the count of its bytes.
#[derive(Clone, Copy, PartialEq, Eq)]
pub struct Length {
    pub value: usize,
    pub octets: usize,
}

// Why there is no length: it is not all there, or not in its shortest form.
#[derive(Clone, Copy, PartialEq, Eq)]
pub enum NoLength {
    Missing,
    WrongForm,
}

// Behind 81.
fn one_byte(bytes: &[u8]) -> Result<Length, NoLength>
    ensures { result ≡ one_byte bytes.now }
{
    match bytes {
        [] => Err(NoLength::Missing),
        [0..=127, ..] => Err(NoLength::WrongForm),
        [value, ..] => Ok(Length {
            value: usize::from(*value),
            octets: 2,
        }),
    }
}

// Behind 82.
fn two_bytes(bytes: &[u8]) -> Result<Length, NoLength>
    ensures { result ≡ two_bytes bytes.now }
{
    match bytes {
        [] | [_] => Err(NoLength::Missing),
        [high, low, ..] => {
            let value = usize::from(*high) * 256 + usize::from(*low);
            if value < 256 {
                return Err(NoLength::WrongForm);
            }
            Ok(Length { value, octets: 3 })
        }
    }
}

// The length at a place of the bytes.
pub fn length_at(bytes: &[u8], place: usize) -> Result<Length, NoLength>
    ensures { result ≡ length_of (drop place bytes.now) }
{
    if bytes.len() <= place {
        return Err(NoLength::Missing);
    }
    let behind = &bytes[place + 1..];
    match bytes[place] {
        0x81 => one_byte(behind),
        0x82 => two_bytes(behind),
        first if first < 0x80 => Ok(Length {
            value: usize::from(first),
            octets: 1,
        }),
        _ => Err(NoLength::WrongForm),
    }
}
