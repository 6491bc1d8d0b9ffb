// The scaled coefficient of a mapped word: the word less its format's nought, over a unit of that nought.
ghost use Rattle.std.specs.Prelude.{◌≡◌, ◌≤◌, ◌^◌, ◌/◌};
ghost use Rattle.rule.specs.Scaled.{scaled_of};

use verdict::{Reason, Refusal};

// The nought of mapped words of a length, which is their unit too.
fn nought(length: usize) -> u64
    requires { (1 ≤ length) × (length ≤ 8) }
    ensures { result ≡ 256 ^ length / 4 }
{
    1 << (8 * length - 2)
}

// The scaled coefficient, or the refusal of the length or of the word.
pub fn scale(word: u64, length: usize) -> Result<i64, Refusal>
    ensures { result ≡ scaled_of word length }
{
    if length == 0 {
        return Err(Reason::ValueLength.at(0));
    }
    if 8 < length {
        return Err(Reason::ValueLength.at(0));
    }
    let unit = nought(length);
    if 2 * unit < word {
        return Err(Reason::ValueRange.at(0));
    }
    if unit <= word {
        Ok((word - unit) as i64)
    } else {
        Ok(0 - ((unit - word) as i64))
    }
}
