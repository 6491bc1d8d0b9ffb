// A program that runs rows of bytes through the calls that C has and says what each gives.
// A row is the letter of what it asks (kind.rt), a space, its bytes in hexadecimal, and decimal numbers, each behind a space.
// A star in place of the first space states mapped deviations for Mode 1, a space IEEE ones.
#![tactic(auto)]

ghost use Rattle.std.specs.Prelude.{◌≤◌, ◌<◌, IfSome};

use kind::{Kind, Pack};
use std::io::{Read, Stdin, Stdout};

mod kind;
mod reads;
mod say;
mod scales;
mod writes;

// The value of a hexadecimal digit.
fn digit(c: u8) -> Option<u8>
    ensures { IfSome result (λ d. d < 16) }
{
    match c {
        b'0'..=b'9' => Some(c - b'0'),
        b'A'..=b'F' => Some(c - b'A' + 10),
        _ => None,
    }
}

// The byte that the pair of digits at a place spells.
fn pair_at(text: &[u8], place: usize) -> Option<u8>
    requires { place ≤ 200000 }
{
    let pair = text.get(place..place + 2)?;
    Some(digit(pair[0])? * 16 + digit(pair[1])?)
}

// The bytes that a row's text spells behind its letter, up to what is no pair of digits: how many.
fn decode(text: &[u8], out: &mut [u8; 65536]) -> usize
    ensures { result ≤ 65536 }
{
    for (n, byte) in out.iter_mut().enumerate() {
        match pair_at(text, 2 + 2 * n) {
            Some(spelled) => *byte = spelled,
            None => return n,
        }
    }
    out.len()
}

// The decimal numbers behind a row's bytes, at most 16.
#[derive(Drop)]
struct Given {
    count: usize,
    values: [usize; 16],
    ghost within: { count ≤ 16 },
}

impl Given {
    // The numbers in a text: a space begins the next one, which is held where ten digits end.
    fn new(text: &[u8]) -> Given {
        let mut given = Given {
            count: 0,
            values: [0; 16],
        };
        for c in text {
            given.take(*c);
        }
        given
    }

    // A character more.
    fn take(&mut self, c: u8) {
        if c == b' ' {
            self.count = (self.count + 1).min(16);
        } else if self.count > 0 {
            let value = &mut self.values[self.count - 1];
            *value = *value % 1000000000 * 10 + usize::from(c % 16);
        }
    }

    fn numbers(&self) -> &[usize] {
        &self.values[..self.count]
    }
}

// How many bytes of 0 stand behind those that the text spells.
fn zeros(kind: Kind, given: &Given) -> usize
    ensures { result ≤ 65536 }
{
    match kind {
        Kind::Address | Kind::Frame => given.values[0].min(65536),
        _ => 0,
    }
}

// What is said of a row before what it gives: its text, but of what is written again the letter alone, with its star.
fn say_asked(to: Stdout, kind: Kind, format: usize, text: &[u8]) {
    match kind {
        Kind::Again(_) => {
            say::put(to, kind.into());
            if format == 1 {
                say::put(to, b'*');
            }
        }
        _ => say::write(to, text),
    }
}

// What a row of this kind gives under a stated format.
fn say_given(to: Stdout, kind: Kind, format: usize, bytes: &[u8], given: &Given) {
    match kind {
        Kind::Verdict(pack) | Kind::Beginnings(pack) => {
            say::say_answer(to, reads::verdict_on(pack, format, bytes))
        }
        Kind::Address => reads::address_row(to, bytes, given),
        Kind::Frame => reads::frame_row(to, bytes),
        Kind::Unpack => reads::unpack_row(to, format, bytes, given),
        Kind::Expand => reads::expand_row(to, format, bytes, given),
        Kind::ScalePack => scales::pack_row(to, format, bytes),
        Kind::ScaleWords => scales::words_row(to, bytes, given),
        Kind::Again(pack) => writes::again_row(to, pack, format, bytes),
        Kind::Write(Pack::Matrix) => writes::matrix_row(to, format, bytes),
        Kind::Write(Pack::Array) => writes::array_row(to, bytes),
    }
}

// A row: its letter, a space or a star (the format that it states, 1), its bytes, its numbers.
fn row(to: Stdout, text: &[u8]) {
    let mut bytes = [0u8; 65536];
    let n = decode(text, &mut bytes);
    let letter = text.first().copied().unwrap_or(0);
    let kind = Kind::try_from(letter).unwrap_or_else(Kind::from);
    let format = usize::from(text.get(1) == Some(&b'*'));
    let given = Given::new(text.get(2 + 2 * n..).unwrap_or(&[]));
    let end = (n + zeros(kind, &given)).min(65536);
    if let Kind::Beginnings(pack) = kind {
        reads::beginnings(to, pack, format, &bytes[..end]);
    }
    say_asked(to, kind, format, text);
    say::put(to, b' ');
    say_given(to, kind, format, &bytes[..end], &given);
    match kind {
        // said with its last word
        Kind::Again(_) => {}
        _ => say::put(to, b'\n'),
    }
}

// The next character of the input.
fn next_character(mut from: Stdin) -> Option<u8> {
    let mut one = [0u8; 1];
    match from.read(&mut one) {
        Ok(1) => Some(one[0]),
        _ => None,
    }
}

// The characters of the next line: how many; none where the input ends before the line does.
fn next_line(from: Stdin, text: &mut [u8; 131072]) -> Option<usize>
    ensures { IfSome result (λ n. n < 131072) }
{
    for (n, place) in text.iter_mut().enumerate() {
        match next_character(from)? {
            b'\n' => return Some(n),
            c => *place = c,
        }
    }
    None
}

// One line: whether there was one.
fn take_row(from: Stdin, to: Stdout) -> bool {
    let mut text = [0u8; 131072];
    let Some(n) = next_line(from, &mut text) else {
        return false;
    };
    if n > 1 {
        row(to, &text[..n]);
    }
    true
}

// Reads to the end of the input; the count of turns is more than any input takes.
fn main(rt: HostRuntime) {
    for _ in 0..u64::MAX {
        if !take_row(rt.stdin(), rt.stdout()) {
            return;
        }
    }
}
