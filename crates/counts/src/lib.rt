// How many pairs, marks and bytes the fields of a matrix ask for.

#![tactic(auto)]

ghost use Rattle.std.specs.Prelude.{◌≡◌, min};
ghost use Rattle.matrix.specs.Header.{bit, header_bytes};
ghost use Rattle.counts.specs.Counts.{pairs_up_to, vector_up_to};

use matrix::Fields;

// The size and one control byte, or two.
const MODE1: usize = 2;

const MODE2: usize = 3;

// M, how many pairs of variables there are.
pub fn pairs_of(n: usize) -> usize
    ensures { result ≡ pairs_up_to n }
{
    if 64 < n {
        return 0;
    }
    (n * n - n) / 2
}

// How many bytes the size and the control bytes take.
#[tactic(auto, unfolding(matrix::specs::Header::header_bytes))]
pub fn header_bytes(f: Fields) -> usize
    ensures { result ≡ header_bytes f }
{
    if f.mode1 { MODE1 } else { MODE2 }
}

// How many bytes the bit vector takes.
pub fn vector_bytes(f: Fields) -> usize
    ensures { result ≡ vector_up_to f }
{
    if f.cs { (pairs_of(f.n) + 7) / 8 } else { 0 }
}

// A flag as a bit.
pub fn bit_of(flag: bool) -> usize
    ensures { result ≡ bit flag }
{
    usize::from(flag)
}

// The mark of values that are all sent: 0 if they have no bytes.
pub fn mark_of(length: usize) -> u8
    ensures { result ≡ min 1 length }
{
    u8::from(length != 0)
}
