// Rows of the readers: verdicts, addressing, unpacking, expanding, and frames. The lists that a call fills are lent from the middle of longer ones.
ghost use Rattle.std.specs.Prelude.{◌≤◌};

use crate::Given;
use crate::kind::Pack;
use crate::say::{
    CANARY, CANARY_BYTE, UNFINISHED, kept, put, say, say_answer, say_begun, say_kept, say_list,
};
use std::io::Stdout;
use word::bytes::byte_at;

// The verdict on bytes as a pack, under a stated format.
pub(crate) fn verdict_on(pack: Pack, format: usize, bytes: &[u8]) -> u64 {
    match pack {
        Pack::Matrix => cmatrix::matrix_verdict(bytes, format),
        Pack::Array => carray::array_verdict(bytes),
    }
}

// Every beginning of the bytes, by its count.
pub(crate) fn beginnings(to: Stdout, pack: Pack, format: usize, bytes: &[u8]) {
    for k in 0..bytes.len() {
        say_begun(to, k, verdict_on(pack, format, &bytes[..k]));
    }
}

// The offset that indices give.
fn say_offset(to: Stdout, bytes: &[u8], indices: &[usize]) {
    let answer = carray::array_address(bytes, indices);
    if answer < UNFINISHED {
        say(to, b"offset ", answer);
        return;
    }
    say_answer(to, answer);
}

// The numbers of a whole array pack, and the offset of an element.
pub(crate) fn address_row(to: Stdout, bytes: &[u8], given: &Given) {
    let mut numbers = [0usize; 11];
    if carray::array_fields(bytes, &mut numbers) < UNFINISHED {
        say_list(to, b"array", &numbers);
        put(to, b' ');
    }
    if let [_, indices @ ..] = given.numbers() {
        say_offset(to, bytes, indices);
    }
}

// How many variables were filled.
#[derive(Clone, Copy)]
pub(crate) struct Filled {
    count: usize,
    ghost within: { count ≤ 64 },
}

impl Filled {
    // None unless the answer, which is said, is complete.
    pub(crate) fn new(to: Stdout, answer: u64, bytes: &[u8]) -> Filled {
        say_answer(to, answer);
        let whole = answer < UNFINISHED;
        Filled {
            count: if whole { byte_at(bytes, 0).min(64) } else { 0 },
        }
    }

    // How many pairs they have.
    pub(crate) fn pairs(self) -> usize
        ensures { result ≤ 2016 }
    {
        self.count * self.count.saturating_sub(1) / 2
    }

    // What was filled of lists of deviations, coefficients and marks.
    fn say_unpacked(
        self,
        to: Stdout,
        deviations: &[u64; 72],
        coefficients: &[u64; 2032],
        marks: &[u8; 2032],
    ) {
        let n = self.count;
        let m = self.pairs();
        if n > 0 {
            say_list(to, b" deviations", &deviations[1..1 + n]);
            say_list(to, b" coefficients", &coefficients[1..1 + m]);
            say_list(to, b" marks", &marks[1..1 + m]);
        }
        say_kept(
            to,
            kept(deviations, CANARY, n)
                & kept(coefficients, CANARY, m)
                & kept(marks, CANARY_BYTE, m),
        );
    }

    // What was filled of lists of words and marks.
    fn say_expanded(self, to: Stdout, words: &[u64; 4112], marks: &[u8; 4112]) {
        let count = self.count * self.count;
        if count > 0 {
            say_list(to, b" words", &words[1..1 + count]);
            say_list(to, b" marks", &marks[1..1 + count]);
        }
        say_kept(
            to,
            kept(words, CANARY, count) & kept(marks, CANARY_BYTE, count),
        );
    }
}

pub(crate) fn unpack_row(to: Stdout, format: usize, bytes: &[u8], given: &Given) {
    let mut deviations = [CANARY; 72];
    let mut coefficients = [CANARY; 2032];
    let mut marks = [CANARY_BYTE; 2032];
    let d = given.values[0].min(70);
    let c = given.values[1].min(2030);
    let m = given.values[2].min(2030);
    let answer = cmatrix::matrix_unpack(
        bytes,
        format,
        &mut deviations[1..1 + d],
        &mut coefficients[1..1 + c],
        &mut marks[1..1 + m],
    );
    Filled::new(to, answer, bytes).say_unpacked(to, &deviations, &coefficients, &marks);
}

pub(crate) fn expand_row(to: Stdout, format: usize, bytes: &[u8], given: &Given) {
    let mut words = [CANARY; 4112];
    let mut marks = [CANARY_BYTE; 4112];
    let w = given.values[0].min(4110);
    let m = given.values[1].min(4110);
    let answer = cmatrix::matrix_expand(bytes, format, &mut words[1..1 + w], &mut marks[1..1 + m]);
    Filled::new(to, answer, bytes).say_expanded(to, &words, &marks);
}

// What is said of the frame of these bytes, behind the letter of its kind.
pub(crate) fn frame_row(to: Stdout, bytes: &[u8]) {
    let mut letter = 0;
    let answer = cframe::frame_verdict(bytes, &mut letter);
    put(to, letter);
    put(to, b' ');
    say_answer(to, answer);
}
