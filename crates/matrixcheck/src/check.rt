// Whether what the writer is given keeps the rules, in document 01's order.
ghost use Rattle.std.specs.Prelude.{◌≡◌, true, cond, min, ◌∷◌, ◌++◌, ◌≤◌, length, take, replicate};
ghost use Rattle.std.specs.List.{list_all, sum as total};
ghost use Rattle.rule.specs.Rules.{admitted, rule_of_deviations, rule_of_coefficients, rule_of};
ghost use Rattle.matrix.specs.Meaning.{pairs, sum, LawfulFields};
ghost use Rattle.matrix.specs.Table.{formatted};
ghost use Rattle.matrixcheck.specs.Given.{marks_fit, sent_fit, formats_fit, format_row, disagree_rows, value_rows, given_rows};
ghost use Rattle.matrixcheck.specs.Checking.{judged_of, checked_of, Enough};
ghost use Rattle.matrixcheck.specs.Marking.{marked_of};

use counts::{mark_of, pairs_of};
use matrix::Fields;
use matrixhead::judge::judge_fields;
use rule::rules::Form;
use verdict::{Reason, Refusal};
use wordwriter::many::gather;

// The least mark that fits, by the greatest one.
fn least_of(sparse: bool, most: u8) -> u8
    ensures { result ≡ cond sparse 0 most }
{
    if sparse { 0 } else { most }
}

// Whether the marks of all pairs fit.
fn marks_fit(f: Fields, marks: &[u8]) -> bool
    ensures { result ≡ marks_fit f marks.now }
{
    let most = mark_of(f.clen);
    let least = least_of(f.cs, most);
    // the bits that any mark has, and those that all have
    let mut any: u8 = 0;
    let mut all = most;
    for mark in marks {
        any |= *mark;
        all &= *mark;
    }
    (any <= most) & (least <= all)
}

// How many marks are 1, where none is greater.
fn sum_of(marks: &[u8]) -> usize
    requires { length marks.now ≤ 2016 }
    ensures { result ≡ total marks.now }
{
    marks.iter().map(|mark| usize::from(*mark)).sum()
}

// How many coefficients are sent: by the marks if sparse, else all that have bytes; none where a mark does not fit.
fn marks_of(f: Fields, marks: &[u8]) -> Option<usize>
    requires { length marks.now ≤ 2016 }
    ensures { result ≡ marked_of f marks.now }
{
    if !marks_fit(f, marks) {
        return None;
    }
    if f.cs {
        return Some(sum_of(marks));
    }
    Some(marks.len() * usize::from(mark_of(f.clen)))
}

// Whether each word is of a form.
fn each_fits(form: Form, words: &[u64]) -> bool
    ensures { result ≡ list_all (admitted (rule_of form)) words.now }
{
    words.iter().all(|word| form.admits(*word))
}

// The same of words that are all sent, or none where they have no bytes; mapped words are mostly told by all their bits together.
fn words_fit(form: Form, words: &[u64]) -> bool
    ensures { result ≡ sent_fit (rule_of form) (replicate (length words.now) (min 1 form.length)) words.now }
{
    if form.length == 0 {
        return true;
    }
    if form.mapped && form.admits(gather(words)) {
        return true;
    }
    each_fits(form, words)
}

// Whether those of the words that are sent are of a form.
fn sent_fit(form: Form, words: &[u64], marks: &[u8]) -> bool
    requires { length words.now ≡ length marks.now }
    ensures { result ≡ sent_fit (rule_of form) marks.now words.now }
{
    for (i, &mark) in marks.iter().enumerate() {
        if mark != 0 && !form.admits(words[i]) {
            return false;
        }
    }
    true
}

fn deviations_fit(f: Fields, deviations: &[u64]) -> bool
    ensures { result ≡ sent_fit (rule_of_deviations f.sf f.slen) (replicate (length deviations.now) (min 1 f.slen)) deviations.now }
{
    let form = Form {
        coefficients: false,
        mapped: f.sf,
        length: f.slen,
    };
    words_fit(form, deviations)
}

// Whether the coefficients that are sent keep their rule: by the marks if sparse, else all that have bytes.
fn coefficients_fit(f: Fields, coefficients: &[u64], marks: &[u8]) -> bool
    requires { (length coefficients.now ≡ length marks.now) × (marks_fit f marks.now ≡ true) }
    ensures { result ≡ sent_fit (rule_of_coefficients f.cf f.clen) marks.now coefficients.now }
{
    let form = Form {
        coefficients: true,
        mapped: f.cf,
        length: f.clen,
    };
    if f.cs {
        return sent_fit(form, coefficients, marks);
    }
    words_fit(form, coefficients)
}

// The values of lists with enough entries.
fn check_values(
    f: Fields,
    sent: usize,
    deviations: &[u64],
    coefficients: &[u64],
    marks: &[u8],
) -> Result<usize, Reason>
    requires { LawfulFields f × (Enough f deviations.now coefficients.now marks.now × ((sent ≡ sum (take (pairs f.n) marks.now)) × (marks_fit f (take (pairs f.n) marks.now) ≡ true))) }
    ensures { result ≡ judged_of (value_rows f deviations.now coefficients.now marks.now) sent }
{
    if f.cs & ((f.slen == 0) & (sent == 0)) {
        return Err(Reason::Empty);
    }
    if !deviations_fit(f, &deviations[..f.n]) {
        return Err(Reason::ValueRange);
    }
    let count = pairs_of(f.n);
    if !coefficients_fit(f, &coefficients[..count], &marks[..count]) {
        return Err(Reason::ValueRange);
    }
    Ok(sent)
}

// The lists of lawful fields.
fn check_lists(
    f: Fields,
    deviations: &[u64],
    coefficients: &[u64],
    marks: &[u8],
) -> Result<usize, Reason>
    requires { LawfulFields f }
    ensures { result ≡ judged_of (disagree_rows f deviations.now coefficients.now marks.now ++ value_rows f deviations.now coefficients.now marks.now) (sum (take (pairs f.n) marks.now)) }
{
    let count = pairs_of(f.n);
    if deviations.len() < f.n {
        return Err(Reason::Disagree);
    }
    if coefficients.len() < count {
        return Err(Reason::Disagree);
    }
    if marks.len() < count {
        return Err(Reason::Disagree);
    }
    let sent = marks_of(f, &marks[..count]).ok_or(Reason::Disagree)?;
    check_values(f, sent, deviations, coefficients, marks)
}

// Whether the formats are those of the mode.
fn formats_fit(f: Fields, mapped: bool) -> bool
    ensures { result ≡ formats_fit mapped f }
{
    if !f.mode1 {
        return true;
    }
    if mapped {
        return f.cf & f.sf;
    }
    f.cf & !f.sf
}

// Fields that keep their rules in the formats that they are judged by, and the lists.
fn check_formats(
    f: Fields,
    mapped: bool,
    deviations: &[u64],
    coefficients: &[u64],
    marks: &[u8],
) -> Result<usize, Reason>
    requires { LawfulFields (formatted mapped f) }
    ensures { result ≡ judged_of (format_row mapped f ∷ (disagree_rows f deviations.now coefficients.now marks.now ++ value_rows f deviations.now coefficients.now marks.now)) (sum (take (pairs f.n) marks.now)) }
{
    if !formats_fit(f, mapped) {
        return Err(Reason::Disagree);
    }
    check_lists(f, deviations, coefficients, marks)
}

// What a writer is given: how many coefficients are sent, or the refusal of the first broken rule; Mode 1's deviations are mapped or not.
pub fn check(
    f: Fields,
    mapped: bool,
    deviations: &[u64],
    coefficients: &[u64],
    marks: &[u8],
) -> Result<usize, Refusal>
    ensures { result ≡ checked_of (given_rows mapped f deviations.now coefficients.now marks.now) (sum (take (pairs f.n) marks.now)) }
{
    judge_fields(f, mapped)?;
    Ok(check_formats(f, mapped, deviations, coefficients, marks)?)
}
