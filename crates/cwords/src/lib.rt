// What C calls of words: mapped coefficients scaled, each slice a pointer and a count, the answer packed into one number.
#![tactic(auto)]

ghost use Rattle.std.specs.Prelude.{◌≡◌, true, ◌≤◌, ◌/◌, ◌^◌, suc, ltb, length as count};
ghost use Rattle.verdict.specs.Answers.{written};
ghost use Rattle.verdict.specs.Lent.{over};
ghost use Rattle.word.specs.Many.{all_below};
ghost use Rattle.listing.specs.Packed.{PackedBy};
ghost use Rattle.cwords.specs.Scaling.{less, scaled_all, ScaledInto};

use rule::scaled::scale;
use verdict::{Reason, Refusal, Verdict};
use wordwriter::many::gather;

// A length of mapped words that scale.
#[derive(Clone, Copy)]
struct Length {
    bytes: usize,
    ghost lawful: { (1 ≤ bytes) × (bytes ≤ 8) },
}

impl Length {
    // Whether a word of this length scales.
    fn scales(self, word: u64) -> bool
        ensures { result ≡ ltb word (suc (256 ^ self.bytes / 2)) }
    {
        scale(word, self.bytes).is_ok()
    }

    // Whether each word scales, one after the other.
    fn each_scales(self, words: &[u64]) -> bool
        ensures { result ≡ all_below (suc (256 ^ self.bytes / 2)) words.now }
    {
        words.iter().all(|word| self.scales(*word))
    }

    // The same, mostly told by all their bits together.
    fn all_scale(self, words: &[u64]) -> bool
        ensures { result ≡ all_below (suc (256 ^ self.bytes / 2)) words.now }
    {
        if self.scales(gather(words)) {
            return true;
        }
        self.each_scales(words)
    }

    // What a word that scales is scaled to.
    fn scaled_of(self, word: u64) -> i64
        requires { word ≤ 256 ^ self.bytes / 2 }
        ensures { result ≡ less self.bytes word }
    {
        scale(word, self.bytes).unwrap_or(0)
    }

    // Each word scaled, over the first entries of a list.
    fn scale_each(self, words: &[u64], scaled: &mut [i64])
        requires { (all_below (suc (256 ^ self.bytes / 2)) words.now ≡ true) × (count words.now ≤ count scaled.old) }
        ensures { scaled.new ≡ over (scaled_all self.bytes words.now) scaled.old }
    {
        for (i, word) in words.iter().enumerate() {
            scaled[i] = self.scaled_of(*word);
        }
    }
}

// Mapped coefficients of this length scaled into a list: their count, or a refusal that leaves it as it was.
fn scale_all(words: &[u64], length: usize, scaled: &mut [i64]) -> Result<usize, Refusal>
    ensures { ScaledInto words.now length scaled.old (written result) scaled.new }
{
    if (length == 0) | (8 < length) {
        return Err(Reason::ValueLength.at(0));
    }
    let length = Length { bytes: length };
    if !length.all_scale(words) {
        return Err(Reason::ValueRange.at(0));
    }
    if scaled.len() < words.len() {
        return Err(Reason::SmallBuffer.at(0));
    }
    length.scale_each(words, scaled);
    Ok(words.len())
}

// Mapped coefficients of this length scaled into a lent list.
pub fn matrix_scale(words: &[u64], length: usize, scaled: &mut [i64]) -> u64
    ensures { PackedBy (λ answer. ScaledInto words.now length scaled.old answer scaled.new) result }
{
    u64::from(Verdict::from(scale_all(words, length, scaled)))
}
