// The rules that words keep: of the IEEE formats, one type per width, and of mapped words of any length.
ghost use Rattle.std.specs.Prelude.{◌≡◌, ℕ, true, ◌/◌, ◌^◌, cond, leb, refl};
ghost use Rattle.rule.specs.Rules.{cleared, admitted, mapped_rule, Format, half, single, double, deviations, coefficients, rule_of_deviations, rule_of_coefficients, rule_of, ruled_by};

use verdict::{Reason, Refusal};

// With its sign cleared, a word of `length` bytes is at most `greatest`. A sign of 0 is none.
#[derive(Clone, Copy, PartialEq, Eq)]
pub struct Rule {
    pub length: usize,
    pub sign: u64,
    pub greatest: u64,
}

impl Rule {
    // Whether a word keeps the rule.
    #[inline(always)]
    fn admits(self, word: u64) -> bool
        ensures { result ≡ admitted self word }
    {
        // The lesser of the two is the word without its sign: half of all coefficients are negative, and a branch would not foretell which.
        let size = word.min(word.wrapping_sub(self.sign));
        size <= self.greatest
    }
}

// The words of an IEEE format: their length, the greatest deviation, the one, and the sign of a coefficient.
pub trait Ieee {
    const LENGTH: usize;

    const GREATEST: u64;

    const ONE: u64;

    const SIGN: u64;

    ghost LENGTH: { ℕ };

    ghost GREATEST: { ℕ };

    ghost ONE: { ℕ };

    ghost SIGN: { ℕ };

    ghost format: { Format };

    ghost format_is: { format ≡ record { bytes = LENGTH; greatest = GREATEST; one = ONE } };

    ghost sign_is: { SIGN ≡ 256 ^ LENGTH / 2 };
}

// IEEE words of 2 bytes.
#[derive(Clone, Copy, PartialEq, Eq)]
pub struct Half;

impl Ieee for Half {
    const LENGTH: usize = 2;

    const GREATEST: u64 = 0x7BFF;

    const ONE: u64 = 0x3C00;

    const SIGN: u64 = 0x8000;

    ghost LENGTH = { 2 };

    ghost GREATEST = { half.greatest };

    ghost ONE = { half.one };

    ghost SIGN = { 0x8000 };

    ghost format = { half };

    ghost format_is = { refl };

    ghost sign_is = { refl };
}

// IEEE words of 4 bytes.
#[derive(Clone, Copy, PartialEq, Eq)]
pub struct Single;

impl Ieee for Single {
    const LENGTH: usize = 4;

    const GREATEST: u64 = 0x7F7F_FFFF;

    const ONE: u64 = 0x3F80_0000;

    const SIGN: u64 = 0x8000_0000;

    ghost LENGTH = { 4 };

    ghost GREATEST = { single.greatest };

    ghost ONE = { single.one };

    ghost SIGN = { 0x80000000 };

    ghost format = { single };

    ghost format_is = { refl };

    ghost sign_is = { refl };
}

// IEEE words of 8 bytes.
#[derive(Clone, Copy, PartialEq, Eq)]
pub struct Double;

impl Ieee for Double {
    const LENGTH: usize = 8;

    const GREATEST: u64 = 0x7FEF_FFFF_FFFF_FFFF;

    const ONE: u64 = 0x3FF0_0000_0000_0000;

    const SIGN: u64 = 0x8000_0000_0000_0000;

    ghost LENGTH = { 8 };

    ghost GREATEST = { double.greatest };

    ghost ONE = { double.one };

    ghost SIGN = { 0x8000000000000000 };

    ghost format = { double };

    ghost format_is = { refl };

    ghost sign_is = { refl };
}

// The rule of a format's coefficients, which have a sign, or of its deviations.
#[inline(always)]
fn ieee_rule<F: Ieee>(signed: bool) -> Rule
    ensures { result ≡ cond signed (coefficients F.format) (deviations F.format) }
{
    Rule {
        length: F::LENGTH,
        sign: if signed { F::SIGN } else { 0 },
        greatest: if signed { F::ONE } else { F::GREATEST },
    }
}

// The rule of mapped words, at most half of the words of their length, or the refusal of that length.
fn mapped_rule(length: usize) -> Result<Rule, Refusal>
    ensures { result ≡ ruled_by true length (mapped_rule length) }
{
    if 8 < length {
        return Err(Reason::ValueLength.at(0));
    }
    Ok(Rule {
        length,
        sign: 0,
        greatest: if length == 0 {
            0
        } else {
            1 << (8 * length - 1)
        },
    })
}

// The form of some words: coefficients or deviations, mapped or IEEE, and their length.
#[derive(Clone, Copy, PartialEq, Eq)]
pub struct Form {
    pub coefficients: bool,
    pub mapped: bool,
    pub length: usize,
}

impl Form {
    // The rule of its words, or the refusal of their length. In 0 bytes only the word 0 is one.
    #[inline(always)]
    fn rule(self) -> Result<Rule, Refusal>
        ensures { result ≡ ruled_by self.mapped self.length (rule_of self) }
    {
        if self.mapped {
            return mapped_rule(self.length);
        }
        match self.length {
            0 => mapped_rule(0),
            2 => Ok(ieee_rule::<Half>(self.coefficients)),
            4 => Ok(ieee_rule::<Single>(self.coefficients)),
            8 => Ok(ieee_rule::<Double>(self.coefficients)),
            _ => Err(Reason::ValueLength.at(0)),
        }
    }

    // Whether a word keeps the rule of its form. Where the form has no such length, every mapped word does, and of IEEE words only 0.
    #[inline(always)]
    pub fn admits(self, word: u64) -> bool
        ensures { result ≡ admitted (rule_of self) word }
    {
        if self.mapped {
            return match self.rule() {
                Ok(rule) => rule.admits(word),
                Err(_) => true,
            };
        }
        // each format's rule is a constant to the compiler
        match self.length {
            2 => ieee_rule::<Half>(self.coefficients).admits(word),
            4 => ieee_rule::<Single>(self.coefficients).admits(word),
            8 => ieee_rule::<Double>(self.coefficients).admits(word),
            _ => word == 0,
        }
    }
}

// The rule of deviations, or the refusal of their length.
pub fn deviation_rule(mapped: bool, length: usize) -> Result<Rule, Refusal>
    ensures { result ≡ ruled_by mapped length (rule_of_deviations mapped length) }
{
    Form {
        coefficients: false,
        mapped,
        length,
    }
    .rule()
}

// The rule of coefficients, or the refusal of their length.
pub fn coefficient_rule(mapped: bool, length: usize) -> Result<Rule, Refusal>
    ensures { result ≡ ruled_by mapped length (rule_of_coefficients mapped length) }
{
    Form {
        coefficients: true,
        mapped,
        length,
    }
    .rule()
}
