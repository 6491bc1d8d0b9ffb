// What C calls of array packs: each answer packed into one number, each slice a pointer and a count.
#![tactic(auto)]

ghost use Rattle.std.specs.Prelude.{◌≡◌};
ghost use Rattle.verdict.specs.Numbers.{packed_of};
ghost use Rattle.array.specs.Machine.{verdict_of};
ghost use Rattle.listing.specs.Packed.{PackedBy};
ghost use Rattle.carray.specs.Numbers.{NumbersBy};
ghost use Rattle.carray.specs.Addressed.{addressed_of};
ghost use Rattle.carray.specs.Writing.{ArrayWritten};

use arrayreader::address;
use verdict::Verdict;

mod fields;

// The verdict on a string of bytes as an array pack.
pub fn array_verdict(bytes: &[u8]) -> u64
    ensures { result ≡ packed_of (verdict_of bytes.now) }
{
    u64::from(arrayreader::verdict(bytes))
}

// NDim, eight sizes, E and the start of an array pack into eleven entries.
pub fn array_fields(bytes: &[u8], fields: &mut [usize]) -> u64
    ensures { PackedBy (λ answer. NumbersBy bytes.now fields.old answer fields.new) result }
{
    u64::from(Verdict::from(fields::list_fields(bytes, fields)))
}

// The offset of the element at these indices from the start of the array.
pub fn array_address(bytes: &[u8], indices: &[usize]) -> u64
    ensures { result ≡ packed_of (addressed_of bytes.now indices.now) }
{
    u64::from(Verdict::from(address(bytes, indices)))
}

// The array pack of these sizes, this element size and this array.
pub fn array_write(sizes: &[usize], element: usize, array: &[u8], out: &mut [u8]) -> u64
    ensures { PackedBy (λ answer. ArrayWritten sizes.now element array.now out.old answer out.new) result }
{
    u64::from(Verdict::from(arraywriter::write(sizes, element, array, out)))
}
