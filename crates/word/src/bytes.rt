// Words in bytes, first byte first, read at a place of the bytes.
ghost use Rattle.std.specs.Prelude.{◌≡◌, ◌-◌, ◌≤◌, ◌<◌, length as count, get_or};
ghost use Rattle.word.specs.Bytes.{word_at, word_of, read_of};

use verdict::{Reason, Stop, from_place, lesser};

// The byte at a place; 0 where there is none.
pub fn byte_at(bytes: &[u8], place: usize) -> usize
    ensures { (result ≡ get_or bytes.now place 0) × (result < 256) }
{
    if place < bytes.len() {
        bytes[place] as usize
    } else {
        0
    }
}

// The word of at most four bytes at a place where they are, each at its weight: one load to the compiler where it knows the length.
fn part_in(bytes: &[u8], place: usize, length: usize) -> u64
    requires { (length ≤ 4) × (length ≤ count bytes.now - place) }
    ensures { result ≡ word_at bytes.now place length }
{
    let mut value: u64 = 0;
    for i in 0..length {
        value += (bytes[place + i] as u64) << (8 * (length - 1 - i));
    }
    value
}

// The word of `length` bytes at a place where they are: its first four, and the others behind them.
pub(crate) fn word_in(bytes: &[u8], place: usize, length: usize) -> u64
    requires { (length ≤ 8) × (length ≤ count bytes.now - place) }
    ensures { result ≡ word_at bytes.now place length }
{
    let first = lesser(length, 4);
    let rest = length - first;
    (part_in(bytes, place, first) << (8 * rest)) + part_in(bytes, place + first, rest)
}

// The word of `length` bytes at a place, how many of its bytes are missing, or a refusal of its length.
pub fn read_at(bytes: &[u8], place: usize, length: usize) -> Result<u64, Stop>
    ensures { result ≡ read_of bytes.now place length }
{
    if 8 < length {
        return Err(Stop::Refused(Reason::ValueLength.at(0)));
    }
    let there = from_place(bytes.len(), place);
    if there < length {
        return Err(Stop::Unfinished(length - there));
    }
    Ok(word_in(bytes, place, length))
}

// The word that the bytes are, first byte first; 0 where they are more than eight.
#[inline(always)]
pub fn word_of(bytes: &[u8]) -> u64
    ensures { result ≡ word_of bytes.now }
{
    if 8 < bytes.len() {
        return 0;
    }
    word_in(bytes, 0, bytes.len())
}

// The same where the compiler does not know how many they are: each length is loads of its own to it.
#[inline(always)]
pub fn any_word_of(bytes: &[u8]) -> u64
    ensures { result ≡ word_of bytes.now }
{
    match bytes.len() {
        1 => word_of(&bytes[..1]),
        2 => word_of(&bytes[..2]),
        3 => word_of(&bytes[..3]),
        4 => word_of(&bytes[..4]),
        5 => word_of(&bytes[..5]),
        6 => word_of(&bytes[..6]),
        7 => word_of(&bytes[..7]),
        8 => word_of(&bytes[..8]),
        _ => word_of(bytes),
    }
}
