// What is said of an answer and of lent lists, and whether all entries but those filled are as they were.
use std::fmt::Display;
use std::io::Stdout;

// What every entry holds before a call.
pub(crate) const CANARY: u64 = 0xA5A5A5A5A5A5A5A5;

pub(crate) const CANARY_BYTE: u8 = 0xA5;

// Answers from here on are no length.
pub(crate) const UNFINISHED: u64 = 0x1_0000_0000;

const REFUSED: u64 = 0x2_0000_0000;

// A text; that it can't be written changes nothing of what is said next.
pub(crate) fn write(to: Stdout, text: &[u8]) {
    let _ = to.write_all(text);
}

// A number's decimal digits.
pub(crate) fn say_decimal<T: Display + Drop>(to: Stdout, number: T) {
    let _ = to.print(number);
}

// One character.
pub(crate) fn put(to: Stdout, c: u8) {
    write(to, &[c]);
}

// A number behind a space.
fn say_next<T: Display + Drop>(to: Stdout, number: T) {
    put(to, b' ');
    say_decimal(to, number);
}

// A number behind a text.
pub(crate) fn say(to: Stdout, text: &[u8], number: u64) {
    write(to, text);
    say_decimal(to, number);
}

// An answer as C gets it.
pub(crate) fn say_answer(to: Stdout, answer: u64) {
    if answer < UNFINISHED {
        say(to, b"complete ", answer);
        return;
    }
    if answer < REFUSED {
        say(to, b"unfinished ", answer - UNFINISHED);
        return;
    }
    let refusal = answer - REFUSED;
    say(to, b"refused ", refusal / 65536);
    say(to, b" at ", refusal % 65536);
}

// A list's entries behind their name.
pub(crate) fn say_list<T: Display + Copy>(to: Stdout, name: &[u8], list: &[T]) {
    write(to, name);
    for entry in list {
        say_next(to, *entry);
    }
}

// An answer behind how many bytes it is on.
pub(crate) fn say_begun(to: Stdout, count: usize, answer: u64) {
    say_decimal(to, count);
    put(to, b' ');
    say_answer(to, answer);
    put(to, b'\n');
}

// Whether the first entry, and those behind so many, hold what each held before.
pub(crate) fn kept<T: PartialEq + Copy>(list: &[T], before: T, count: usize) -> bool {
    list.iter()
        .enumerate()
        .all(|(i, entry)| *entry == before || (0 < i && i <= count))
}

pub(crate) fn say_kept(to: Stdout, kept: bool) {
    write(to, if kept { b" kept" } else { b" lost" });
}
