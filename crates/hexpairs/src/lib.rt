// Upper-case hexadecimal: whether a text is pairs of digits, and the bytes that they spell.
#![tactic(auto)]

ghost use Rattle.std.specs.Prelude.{◌≡◌, true, ◌&&◌, ◌/◌, ◌≤◌, length, fold};
ghost use Rattle.verdict.specs.Answers.{written};
ghost use Rattle.hexpairs.specs.Hex.{is_digit, digit_of, is_hex, hex_of, Decoded};

use verdict::{Reason, Refusal};

fn is_digit(c: u8) -> bool
    ensures { result ≡ is_digit c }
{
    ((48 <= c) & (c <= 57)) | ((65 <= c) & (c <= 70))
}

// The value of a digit: its low four bits, and 9 more for a letter.
fn digit(c: u8) -> u8
    requires { is_digit c ≡ true }
    ensures { (result ≡ digit_of c) × (result ≤ 15) }
{
    c % 16 + 9 * (c / 64)
}

// Whether each character is a digit; all are looked at, so that the loop has no branch.
fn all_digits(text: &[u8]) -> bool
    ensures { result ≡ fold (λ good c. good && is_digit c) true text.now }
{
    text.iter().fold(true, |good, c| good & is_digit(*c))
}

// Whether a text is pairs of digits.
#[tactic(auto, using(crate::proofs::DigitPairs::odd_not_hex, crate::proofs::DigitPairs::even_hex))]
fn is_hex(text: &[u8]) -> bool
    ensures { result ≡ is_hex text.now }
{
    if text.len() % 2 == 1 {
        return false;
    }
    all_digits(text)
}

// The bytes that a text spells, one for each pair.
fn spell(text: &[u8], out: &mut [u8])
    requires { (is_hex text.now ≡ true) × (length out.old ≡ length text.now / 2) }
    ensures { out.new ≡ hex_of text.now }
{
    for (i, byte) in out.iter_mut().enumerate() {
        *byte = digit(text[2 * i]) * 16 + digit(text[2 * i + 1]);
    }
}

// The bytes that a text spells, at the front of `out`: the count of them; 20 where it is not pairs of digits, then 13.
pub fn decode(text: &[u8], out: &mut [u8]) -> Result<usize, Refusal>
    ensures { Decoded text.now out.old (written result) out.new }
{
    let count = text.len() / 2;
    if !is_hex(text) {
        return Err(Reason::Character.at(0));
    }
    if out.len() < count {
        return Err(Reason::SmallBuffer.at(0));
    }
    spell(text, &mut out[..count]);
    Ok(count)
}
