// The bytes of a lawful array pack, put one after the other where there is room.
ghost use Rattle.std.specs.Prelude.{◌≡◌, ◌+◌, ◌≤◌, ◌<◌, length};
ghost use Rattle.verdict.specs.Answers.{written};
ghost use Rattle.verdict.specs.Writing.{put, room_rows, WrittenBy};
ghost use Rattle.number.specs.Octets.{octets, numbers};
ghost use Rattle.array.specs.Meaning.{Lawful};
ghost use Rattle.array.specs.Spelling.{bytes_of};
ghost use Rattle.arraywriter.specs.Given.{meaning_given};

use numberwriter::write::{count_of, write_at};
use verdict::{Reason, Refusal};

// How many octets so few numbers have.
fn count_all(values: &[usize]) -> usize
    requires { length values.now ≤ 8 }
    ensures { result ≡ length (numbers values.now) }
{
    let mut count: usize = 0;
    for &value in values {
        count += count_of(value as u64);
    }
    count
}

// A number's octets at a place with room for them, and the place behind them.
fn put_number(out: &mut [u8], place: usize, value: usize) -> usize
    requires { place + length (octets value) ≤ length out.old }
    ensures value { result ≡ place + length (octets value) }
    ensures out_after { out.new ≡ put out.old place (octets value) }
{
    place + write_at(out, place, value as u64).unwrap()
}

// Numbers one after the other at a place with room for them, and the place behind them.
fn put_numbers(out: &mut [u8], place: usize, values: &[usize]) -> usize
    requires { place + length (numbers values.now) ≤ length out.old }
    ensures value { result ≡ place + length (numbers values.now) }
    ensures out_after { out.new ≡ put out.old place (numbers values.now) }
{
    let mut at = place;
    for &value in values {
        at = put_number(out, at, value);
    }
    at
}

// Bytes at a place with room for them. `copy_from_slice` would be a call of memmove, which the archive for C does not ask a program for.
fn put_bytes(out: &mut [u8], place: usize, bytes: &[u8])
    requires { place + length bytes.now ≤ length out.old }
    ensures { out.new ≡ put out.old place bytes.now }
{
    for (i, &byte) in bytes.iter().enumerate() {
        out[place + i] = byte;
    }
}

// NDim, the sizes, E, processing 1 and the array one after the other, where there is room for them.
fn put_given(sizes: &[usize], element: usize, array: &[u8], out: &mut [u8])
    requires { length (bytes_of (meaning_given sizes.now element array.now)) ≤ length out.old }
    ensures { out.new ≡ put out.old 0 (bytes_of (meaning_given sizes.now element array.now)) }
{
    let first = put_number(out, 0, sizes.len());
    let second = put_numbers(out, first, sizes);
    let third = put_number(out, second, element);
    let start = put_number(out, third, 1);
    put_bytes(out, start, array);
}

// Writes what is lawful, where there is room.
pub(crate) fn write_given(
    sizes: &[usize],
    element: usize,
    array: &[u8],
    out: &mut [u8],
) -> Result<usize, Refusal>
    requires { Lawful (meaning_given sizes.now element array.now) }
    ensures { WrittenBy (room_rows (length (bytes_of (meaning_given sizes.now element array.now))) (length out.old)) (bytes_of (meaning_given sizes.now element array.now)) out.old 0 (written result) out.new }
{
    let head = count_of(sizes.len() as u64) + (count_all(sizes) + (count_of(element as u64) + 1));
    let whole = head + array.len();
    if out.len() < whole {
        return Err(Reason::SmallBuffer.at(0));
    }
    put_given(sizes, element, array, out);
    Ok(whole)
}
