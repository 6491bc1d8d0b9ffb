// The words of a matrix pack against their rule: their first bytes mostly settle them, many at a time, and only words that these leave open are looked at one by one.
ghost use Rattle.std.specs.Prelude.{◌≡◌, ℕ, true, ◌+◌, ◌-◌, ◌*◌, ◌/◌, ◌%◌, ◌^◌, ◌≤◌, ◌<◌, length as count, get_or, IfSome};
ghost use Rattle.std.specs.Int.Bits.{bit_and};
ghost use Rattle.matrixwalk.specs.Parts.{mask_of, LookedAt, TightAt, Judges, Checks, FirstsBelow, Raised, BlocksUnder, TwosUnder, PassedFrom};

use crate::ruled::Ruled;
use rule::rules::Rule;
use verdict::{Reason, Stop, lesser};
use word::bytes::{any_word_of, byte_at};

// Below so many bytes a loop over words is not worth making wide.
const FEW: usize = 64;

// What of a word's first byte counts: all of it, or what stands below the sign.
fn mask_of(rule: Rule) -> usize
    ensures { result ≡ mask_of rule }
{
    if rule.sign == 0 { 255 } else { 127 }
}

// The byte of the greatest word that has `more` bytes behind it.
fn limit_at(greatest: u64, more: usize) -> usize
    requires { more ≤ 7 }
    ensures { result ≡ greatest / 256 ^ more % 256 }
{
    ((greatest >> (8 * more)) % 256) as usize
}

// Whether the first byte of each word of so many bytes is below a limit. A `while`: by `step_by`, tried, short words took up to a tenth longer.
fn all_below(words: &[u8], length: usize, limit: u8) -> bool
    requires { (1 ≤ length) × (length ≤ 8) }
    ensures { result ≡ true → FirstsBelow words.now 0 (count words.now) length limit }
{
    let mut at = 0;
    while at < words.len() {
        if limit <= words[at] {
            return false;
        }
        at += length;
    }
    true
}

// Raises each entry to the byte that stands as far behind a place.
fn raise(words: &[u8], at: usize, most: &mut [u8])
    requires { at + count most.old ≤ count words.now }
    ensures { Raised words.now at most.old most.new }
{
    for (i, entry) in most.iter_mut().enumerate() {
        *entry = (*entry).max(words[at + i]);
    }
}

// The greatest bytes of blocks of so many bytes, one for each place in a block.
fn greatest_of(words: &[u8], blocks: usize, size: usize) -> [u8; 128]
    requires { (size ≤ 128) × (blocks * size ≤ count words.now) }
    ensures { BlocksUnder words.now blocks size result }
{
    let mut most = [0u8; 128];
    for i in 0..blocks {
        let at = i * size;
        raise(words, at, &mut most[..size]);
    }
    most
}

// Whether the first byte of each word is below a limit, of so many blocks of sixteen words, by the greatest of each place.
fn blocks_below(words: &[u8], blocks: usize, length: usize, limit: u8) -> bool
    requires { (1 ≤ length) × ((length ≤ 8) × (blocks * (16 * length) ≤ count words.now)) }
    ensures { result ≡ true → FirstsBelow words.now 0 (blocks * (16 * length)) length limit }
{
    let size = 16 * length;
    let most = greatest_of(words, blocks, size);
    all_below(&most[..size], length, limit)
}

// Each length is loops of its own to the compiler, which makes them wide. No word is longer.
fn blocks_by_length(words: &[u8], blocks: usize, length: usize, limit: u8) -> bool
    requires { blocks * (16 * length) ≤ count words.now }
    ensures { result ≡ true → FirstsBelow words.now 0 (blocks * (16 * length)) length limit }
{
    match length {
        1 => blocks_below(words, blocks, 1, limit),
        2 => blocks_below(words, blocks, 2, limit),
        3 => blocks_below(words, blocks, 3, limit),
        4 => blocks_below(words, blocks, 4, limit),
        5 => blocks_below(words, blocks, 5, limit),
        6 => blocks_below(words, blocks, 6, limit),
        7 => blocks_below(words, blocks, 7, limit),
        8 => blocks_below(words, blocks, 8, limit),
        _ => false,
    }
}

// Whether the first byte of each word is below a limit: block by block, and then of those that are left.
fn many_below(words: &[u8], length: usize, limit: u8) -> bool
    requires { (1 ≤ length) × (length ≤ 8) }
    ensures { result ≡ true → FirstsBelow words.now 0 (count words.now) length limit }
{
    let size = 16 * length;
    let blocks = words.len() / size;
    if !blocks_by_length(words, blocks, length, limit) {
        return false;
    }
    all_below(&words[blocks * size..], length, limit)
}

// The first two bytes of a word, the second the higher: so the compiler makes one load of them.
fn swapped_at(words: &[u8], at: usize) -> u16
    requires { at + 1 < count words.now }
    ensures { result % 256 * 256 + result / 256 ≡ get_or words.now at 0 * 256 + get_or words.now (at + 1) 0 }
{
    words[at] as u16 + words[at + 1] as u16 * 256
}

// What counts of the first two bytes of a word.
fn two_at(words: &[u8], at: usize, mask: u16) -> u16
    requires { at + 1 < count words.now }
    ensures { result ≡ bit_and (get_or words.now at 0 * 256 + get_or words.now (at + 1) 0) mask }
{
    let swapped = swapped_at(words, at);
    (swapped % 256 * 256 + swapped / 256) & mask
}

// The greatest beginning, of two bytes, of the words; none where the last has only its first byte. A `while`: by `step_by`, tried, words of eight bytes took a fifth longer.
fn greatest_two<const LENGTH: usize>(words: &[u8], mask: u16) -> Option<u16>
    requires { (2 ≤ LENGTH) × (LENGTH ≤ 8) }
    ensures { IfSome result (λ most. TwosUnder words.now 0 (count words.now) LENGTH mask most) }
{
    let mut most: u16 = 0;
    let mut at = 0;
    while at + 1 < words.len() {
        most = two_at(words, at, mask).max(most);
        at += LENGTH;
    }
    if at < words.len() {
        return None;
    }
    Some(most)
}

// Each length is a loop of its own to the compiler, which makes it wide. Words of other lengths have no sign.
fn two_by_length(words: &[u8], length: usize, mask: u16) -> Option<u16>
    ensures { IfSome result (λ most. TwosUnder words.now 0 (count words.now) length mask most) }
{
    match length {
        2 => greatest_two::<2>(words, mask),
        4 => greatest_two::<4>(words, mask),
        8 => greatest_two::<8>(words, mask),
        _ => None,
    }
}

// The first two bytes of a word that has `more` bytes behind them.
fn two_of(word: u64, more: usize) -> u16
    requires { (more ≤ 6) × (word < 65536 * 256 ^ more) }
    ensures { result ≡ word / 256 ^ more }
{
    ((word >> (8 * more)) % 65536) as u16
}

// Behind a first byte that is its limit's: the byte that breaks the rule, or `until`.
fn tight_word(bytes: &[u8], at: usize, until: usize, ruled: Ruled) -> usize
    requires { LookedAt bytes.now at until ruled.rule × TightAt bytes.now at ruled.rule }
    ensures { Judges bytes.now at until ruled.rule result }
{
    let end = at + ruled.rule.length;
    let stop = lesser(end, until);
    for i in at + 1..stop {
        let limit = limit_at(ruled.rule.greatest, end - 1 - i);
        let b = byte_at(bytes, i);
        if limit < b {
            return i;
        }
        if b < limit {
            return until;
        }
    }
    until
}

// A word whose first byte is its limit's: where it is whole, its form's check tells whether it keeps the rule, and its bytes the place of a refusal, or what is cut.
fn judge_tight(bytes: &[u8], at: usize, until: usize, ruled: Ruled) -> usize
    requires { LookedAt bytes.now at until ruled.rule × TightAt bytes.now at ruled.rule }
    ensures { Judges bytes.now at until ruled.rule result }
{
    if ruled.form.length <= until - at {
        let end = at + ruled.form.length;
        if ruled.form.admits(any_word_of(&bytes[at..end])) {
            return until;
        }
    }
    tight_word(bytes, at, until, ruled)
}

// The byte of the word at a place that breaks its rule, or `until` where none before that does.
fn judge_word(
    bytes: &[u8],
    at: usize,
    until: usize,
    ruled: Ruled,
    mask: usize,
    first: usize,
) -> usize
    requires { LookedAt bytes.now at until ruled.rule × (mask ≡ mask_of ruled.rule) × (first ≡ ruled.rule.greatest / 256 ^ (ruled.rule.length - 1)) }
    ensures { Judges bytes.now at until ruled.rule result }
{
    let b = byte_at(bytes, at) & mask;
    if first < b {
        return at;
    }
    if b < first {
        return until;
    }
    judge_tight(bytes, at, until, ruled)
}

// Some words of a form with its rule: where they begin, and where what there is of them ends.
#[derive(Clone, Copy)]
struct Words<'a> {
    bytes: &'a [u8],
    place: usize,
    until: usize,
    ruled: Ruled,
    ghost some: { 1 ≤ ruled.rule.length },
    ghost forward: { place ≤ until },
    ghost within: { until ≤ count bytes.now },
    ghost fit: { (i : ℕ) → get_or bytes.now i 0 < 256 },
}

impl<'a> Words<'a> {
    // The byte that breaks the rule, or `until` where none does, word by word: an `Option`, tried, took up to two fifths longer.
    // A `while`: by `step_by`, tried, words that their first bytes settle took a fifth longer.
    fn check_each(self) -> usize
        ensures { Checks self.entry.bytes.now self.entry.place self.entry.until self.entry.ruled.rule result }
    {
        let ruled = self.ruled;
        let mask = mask_of(ruled.rule);
        let first = limit_at(ruled.rule.greatest, ruled.rule.length - 1);
        let mut at = self.place;
        while at < self.until {
            let broken = judge_word(self.bytes, at, self.until, ruled, mask, first);
            if broken < self.until {
                return broken;
            }
            at += ruled.rule.length;
        }
        self.until
    }

    // Whether two bytes of each word settle that none breaks the rule, which has a sign.
    fn settled_by_two(self) -> bool
        requires { (2 ≤ self.ruled.rule.length) × (1 ≤ self.ruled.rule.sign) }
        ensures { result ≡ true → Checks self.entry.bytes.now self.entry.place self.entry.until self.entry.ruled.rule self.entry.until }
    {
        let rule = self.ruled.rule;
        let more = rule.length - 2;
        // what stands below the sign; the compiler would take a constant mask apart
        let mask = two_of(rule.sign - 1, more);
        let limit = two_of(rule.greatest, more);
        match two_by_length(&self.bytes[self.place..self.until], rule.length, mask) {
            Some(most) => most < limit,
            None => false,
        }
    }

    // Whether the first byte of each word settles it, of a rule without a sign: few words one after the other, many at a time.
    fn settled_unsigned(self) -> bool
        requires { self.ruled.rule.sign ≡ 0 }
        ensures { result ≡ true → Checks self.entry.bytes.now self.entry.place self.entry.until self.entry.ruled.rule self.entry.until }
    {
        let rule = self.ruled.rule;
        let words = &self.bytes[self.place..self.until];
        let limit = limit_at(rule.greatest, rule.length - 1) as u8;
        if words.len() < FEW {
            return all_below(words, rule.length, limit);
        }
        many_below(words, rule.length, limit)
    }

    // Whether their first bytes alone settle that no word breaks the rule.
    fn settled(self) -> bool
        ensures { result ≡ true → Checks self.entry.bytes.now self.entry.place self.entry.until self.entry.ruled.rule self.entry.until }
    {
        if self.ruled.rule.sign == 0 {
            return self.settled_unsigned();
        }
        if self.ruled.rule.length == 1 {
            return false;
        }
        self.settled_by_two()
    }

    // The byte that breaks the rule, or `until` where none does.
    fn check(self) -> usize
        ensures { Checks self.entry.bytes.now self.entry.place self.entry.until self.entry.ruled.rule result }
    {
        if self.settled() {
            return self.until;
        }
        self.check_each()
    }
}

// The place past so many words of a form and its rule, or why there is none; behind them `after` bytes of other words are to come.
pub(crate) fn pass(
    bytes: &[u8],
    place: usize,
    words: usize,
    ruled: Ruled,
    after: usize,
) -> Result<usize, Stop>
    requires { (words ≤ 2016) × (place ≤ count bytes.now) × (after ≤ 65536) }
    ensures { PassedFrom bytes.now place words ruled.rule after result }
{
    if ruled.rule.length == 0 {
        return Ok(place);
    }
    let end = place + words * ruled.rule.length;
    let until = lesser(end, bytes.len());
    let there = Words {
        bytes,
        place,
        until,
        ruled,
    };
    let broken = there.check();
    if broken < until {
        return Err(Stop::Refused(Reason::ValueRange.at(broken)));
    }
    if until < end {
        return Err(Stop::Unfinished(end - until + after));
    }
    Ok(end)
}
