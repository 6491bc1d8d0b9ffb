// Rows of the writers: a pack that is read is written again, or what is written stands in the row's bytes. The buffer is lent from the middle of a longer one.
ghost use Rattle.std.specs.Prelude.{◌≤◌};

use crate::kind::Pack;
use crate::say::{
    CANARY_BYTE, UNFINISHED, kept, say_answer, say_decimal, say_kept, say_list, write,
};
use std::array;
use std::io::Stdout;
use word::bytes::{byte_at, read_at};

// The answer 13.
const SMALL: u64 = 0x2_000D_0000;

// Whether an answer and what it left are right: the pack where there is room for it, else 13 and nothing.
fn right(answer: u64, out: &[u8; 33024], bytes: &[u8], room: usize) -> bool {
    let count = bytes.len();
    if room < count {
        return (answer == SMALL) & kept(out, CANARY_BYTE, 0);
    }
    (answer == count as u64) & out[1..].starts_with(bytes) & kept(out, CANARY_BYTE, count)
}

// A matrix pack, read and unpacked, is written again.
fn matrix_again(format: usize, bytes: &[u8], out: &mut [u8]) -> u64 {
    let mut fields = [0usize; 7];
    let mut deviations = [0u64; 64];
    let mut coefficients = [0u64; 2016];
    let mut marks = [0u8; 2016];
    cmatrix::matrix_fields(bytes, format, &mut fields);
    cmatrix::matrix_unpack(
        bytes,
        format,
        &mut deviations,
        &mut coefficients,
        &mut marks,
    );
    cmatrix::matrix_write(&fields, format, &deviations, &coefficients, &marks, out)
}

// An array pack, read, is written again.
fn array_again(bytes: &[u8], out: &mut [u8]) -> u64 {
    let mut fields = [0usize; 11];
    carray::array_fields(bytes, &mut fields);
    let dims = fields[0].min(8);
    let start = fields[10].min(bytes.len());
    carray::array_write(&fields[1..1 + dims], fields[9], &bytes[start..], out)
}

// Whether a pack is written as it was into so much room.
fn again(pack: Pack, format: usize, bytes: &[u8], room: usize) -> bool
    requires { room ≤ 33000 }
{
    let mut buffer = [CANARY_BYTE; 33024];
    let out = &mut buffer[1..1 + room];
    let answer = match pack {
        Pack::Matrix => matrix_again(format, bytes, out),
        Pack::Array => array_again(bytes, out),
    };
    right(answer, &buffer, bytes, room)
}

// Whether a pack of 1 to 32,900 bytes is written as it was into room that is exact, one byte short and longer.
fn same(pack: Pack, format: usize, bytes: &[u8]) -> bool {
    let count = bytes.len();
    (1..=32900).contains(&count)
        && [count, count - 1, count + 9]
            .iter()
            .all(|room| again(pack, format, bytes, *room))
}

// How many bytes a pack has, and whether it is written again as it was.
pub(crate) fn again_row(to: Stdout, pack: Pack, format: usize, bytes: &[u8]) {
    say_decimal(to, bytes.len());
    write(
        to,
        if same(pack, format, bytes) {
            b" same\n"
        } else {
            b" differs\n"
        },
    );
}

// The answer, the first bytes written, and whether all others are as they were.
fn say_written(to: Stdout, answer: u64, out: &[u8; 33024]) {
    say_answer(to, answer);
    if answer < UNFINISHED {
        let count = (answer as usize).min(33023);
        say_list(to, b"", &out[1..1 + count.min(64)]);
        say_kept(to, kept(out, CANARY_BYTE, count));
        return;
    }
    say_kept(to, kept(out, CANARY_BYTE, 0));
}

// The number in eight bytes at a place, 0 where they are not there.
fn number_at(bytes: &[u8], place: usize) -> u64 {
    read_at(bytes, place, 8).unwrap_or(0)
}

// Sixty-four numbers from a place on.
pub(crate) fn words_in(bytes: &[u8], from: usize) -> [u64; 64]
    requires { from ≤ 1000 }
{
    array::from_fn(|i| number_at(bytes, from + 8 * i))
}

// So many deviations and coefficients stand in the bytes, before the marks.
fn matrix_of(to: Stdout, format: usize, bytes: &[u8], d: usize, c: usize, marks: &[u8])
    requires { (d ≤ 64) × (c ≤ 64) }
{
    let mut out = [CANARY_BYTE; 33024];
    let fields: [usize; 7] = array::from_fn(|i| byte_at(bytes, i));
    let deviations = words_in(bytes, 11);
    let coefficients = words_in(bytes, 11 + 8 * d);
    let room = byte_at(bytes, 7);
    let answer = cmatrix::matrix_write(
        &fields,
        format,
        &deviations[..d],
        &coefficients[..c],
        marks,
        &mut out[1..1 + room],
    );
    say_written(to, answer, &out);
}

// A byte each: N, Cs, Cf, Clen, Sf, Slen, the mode, the room, how many deviations, coefficients and marks; then these, a mark being a byte.
pub(crate) fn matrix_row(to: Stdout, format: usize, bytes: &[u8]) {
    let d = byte_at(bytes, 8).min(64);
    let c = byte_at(bytes, 9).min(64);
    let behind = 11 + 8 * (d + c);
    let end = behind + byte_at(bytes, 10);
    if end <= bytes.len() {
        matrix_of(to, format, bytes, d, c, &bytes[behind..end]);
    }
}

// The numbers behind the first byte.
fn numbers_in(bytes: &[u8]) -> [usize; 12] {
    array::from_fn(|i| number_at(bytes, 1 + 8 * i) as usize)
}

// A byte for how many sizes; then in eight bytes each these, E, the length of the array (its bytes are 7) and the room.
pub(crate) fn array_row(to: Stdout, bytes: &[u8]) {
    let array = [7u8; 33024];
    let mut out = [CANARY_BYTE; 33024];
    let list = numbers_in(bytes);
    let dims = byte_at(bytes, 0).min(9);
    let count = list[dims + 1].min(33000);
    let room = list[dims + 2].min(33000);
    let answer = carray::array_write(
        &list[..dims],
        list[dims],
        &array[..count],
        &mut out[1..1 + room],
    );
    say_written(to, answer, &out);
}
