// Rows of scaling: a pack's coefficients, or words that stand in the row's bytes. The list that is filled is lent from the middle of a longer one.
ghost use Rattle.std.specs.Prelude.{◌≤◌};

use crate::Given;
use crate::reads::Filled;
use crate::say::{UNFINISHED, kept, say, say_answer, say_kept, write};
use crate::writes::words_in;
use std::io::Stdout;

// What every entry holds before a call: no word scales to it.
const CANARY: i64 = 0x7FFFFFFFFFFFFFFF;

// A list's entries, each behind a space and its sign.
fn say_values(to: Stdout, list: &[i64]) {
    write(to, b" scaled");
    for value in list {
        let before: &[u8] = if *value < 0 { b" -" } else { b" " };
        say(to, before, value.unsigned_abs());
    }
}

// The unit of a length: what the word 0 is below nought.
fn say_unit(to: Stdout, length: usize) {
    let mut unit = [0i64];
    cwords::matrix_scale(&[0u64], length, &mut unit);
    say(to, b" of ", unit[0].unsigned_abs());
}

// The coefficients of a whole pack.
pub(crate) fn pack_row(to: Stdout, format: usize, bytes: &[u8]) {
    let mut fields = [0usize; 7];
    let mut deviations = [0u64; 64];
    let mut coefficients = [0u64; 2016];
    let mut marks = [0u8; 2016];
    let mut scaled = [0i64; 2016];
    let answer = cmatrix::matrix_unpack(
        bytes,
        format,
        &mut deviations,
        &mut coefficients,
        &mut marks,
    );
    let m = Filled::new(to, answer, bytes).pairs();
    cmatrix::matrix_fields(bytes, format, &mut fields);
    cwords::matrix_scale(&coefficients[..m], fields[3], &mut scaled);
    say_values(to, &scaled[..m]);
    say_unit(to, fields[3]);
}

// The answer, what was filled of a list, and whether all other entries are as they were.
fn say_scaled(to: Stdout, answer: u64, list: &[i64; 72], count: usize)
    requires { count ≤ 64 }
{
    say_answer(to, answer);
    if answer < UNFINISHED {
        say_values(to, &list[1..1 + count]);
        say_kept(to, kept(list, CANARY, count));
        return;
    }
    say_kept(to, kept(list, CANARY, 0));
}

// Words in eight bytes each, by the length and the room that the row gives.
pub(crate) fn words_row(to: Stdout, bytes: &[u8], given: &Given) {
    let mut scaled = [CANARY; 72];
    let words = words_in(bytes, 0);
    let count = (bytes.len() / 8).min(64);
    let room = given.values[1].min(70);
    let answer = cwords::matrix_scale(&words[..count], given.values[0], &mut scaled[1..1 + room]);
    say_scaled(to, answer, &scaled, count);
}
