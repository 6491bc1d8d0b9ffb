// The calls that C has, under the names of the header: each hands its arguments to the call of that name in cmatrix, carray, cframe or cwords.

#![tactic(auto)]

ghost use Rattle.std.specs.Prelude.{◌≡◌};
ghost use Rattle.verdict.specs.Numbers.{packed_of};
ghost use Rattle.array.specs.Machine.{verdict_of};
ghost use Rattle.listing.specs.Packed.{PackedBy};
ghost use Rattle.cmatrix.specs.Format.{verdict_by, UnpackedUnder, ExpandedUnder};
ghost use Rattle.cmatrix.specs.Fields.{FieldsBy};
ghost use Rattle.cmatrix.specs.Writing.{MatrixWritten};
ghost use Rattle.carray.specs.Numbers.{NumbersBy};
ghost use Rattle.carray.specs.Addressed.{addressed_of};
ghost use Rattle.carray.specs.Writing.{ArrayWritten};
ghost use Rattle.cframe.specs.Said.{FrameSaid};
ghost use Rattle.cwords.specs.Scaling.{ScaledInto};

// The verdict on a string of bytes as a matrix pack.
#[unsafe(no_mangle)]
pub extern "C" fn matrix_verdict(bytes: &[u8], format: usize) -> u64
    ensures { result ≡ packed_of (verdict_by format bytes.now) }
{
    cmatrix::matrix_verdict(bytes, format)
}

// N, Cs, Cf, Clen, Sf, Slen and the mode of a matrix pack into seven entries.
#[unsafe(no_mangle)]
pub extern "C" fn matrix_fields(bytes: &[u8], format: usize, fields: &mut [usize]) -> u64
    ensures { PackedBy (λ answer. FieldsBy format bytes.now fields.old answer fields.new) result }
{
    cmatrix::matrix_fields(bytes, format, fields)
}

// N deviation words, M coefficient words and M marks of a matrix pack.
#[unsafe(no_mangle)]
pub extern "C" fn matrix_unpack(
    bytes: &[u8],
    format: usize,
    deviations: &mut [u64],
    coefficients: &mut [u64],
    marks: &mut [u8],
) -> u64
    ensures { PackedBy (λ answer. UnpackedUnder format bytes.now deviations.old coefficients.old marks.old answer deviations.new coefficients.new marks.new) result }
{
    cmatrix::matrix_unpack(bytes, format, deviations, coefficients, marks)
}

// N × N words and marks of a matrix pack, by rows.
#[unsafe(no_mangle)]
pub extern "C" fn matrix_expand(
    bytes: &[u8],
    format: usize,
    words: &mut [u64],
    marks: &mut [u8],
) -> u64
    ensures { PackedBy (λ answer. ExpandedUnder format bytes.now words.old marks.old answer words.new marks.new) result }
{
    cmatrix::matrix_expand(bytes, format, words, marks)
}

// The matrix pack of seven fields, deviations, coefficients and marks.
#[unsafe(no_mangle)]
pub extern "C" fn matrix_write(
    fields: &[usize],
    format: usize,
    deviations: &[u64],
    coefficients: &[u64],
    marks: &[u8],
    out: &mut [u8],
) -> u64
    ensures { PackedBy (λ answer. MatrixWritten format fields.now deviations.now coefficients.now marks.now out.old answer out.new) result }
{
    cmatrix::matrix_write(fields, format, deviations, coefficients, marks, out)
}

// Mapped coefficients of this length scaled into a lent list.
#[unsafe(no_mangle)]
pub extern "C" fn matrix_scale(words: &[u64], length: usize, scaled: &mut [i64]) -> u64
    ensures { PackedBy (λ answer. ScaledInto words.now length scaled.old answer scaled.new) result }
{
    cwords::matrix_scale(words, length, scaled)
}

// The verdict on a string of bytes as an array pack.
#[unsafe(no_mangle)]
pub extern "C" fn array_verdict(bytes: &[u8]) -> u64
    ensures { result ≡ packed_of (verdict_of bytes.now) }
{
    carray::array_verdict(bytes)
}

// NDim, eight sizes, E and the start of an array pack into eleven entries.
#[unsafe(no_mangle)]
pub extern "C" fn array_fields(bytes: &[u8], fields: &mut [usize]) -> u64
    ensures { PackedBy (λ answer. NumbersBy bytes.now fields.old answer fields.new) result }
{
    carray::array_fields(bytes, fields)
}

// The offset of the element at these indices from the start of the array.
#[unsafe(no_mangle)]
pub extern "C" fn array_address(bytes: &[u8], indices: &[usize]) -> u64
    ensures { result ≡ packed_of (addressed_of bytes.now indices.now) }
{
    carray::array_address(bytes, indices)
}

// The array pack of these sizes, this element size and this array.
#[unsafe(no_mangle)]
pub extern "C" fn array_write(sizes: &[usize], element: usize, array: &[u8], out: &mut [u8]) -> u64
    ensures { PackedBy (λ answer. ArrayWritten sizes.now element array.now out.old answer out.new) result }
{
    carray::array_write(sizes, element, array, out)
}

// The answer to a frame's bytes, and the letter of its kind, which is told whatever the answer is.
#[unsafe(no_mangle)]
pub extern "C" fn frame_verdict(bytes: &[u8], kind: &mut u8) -> u64
    ensures { FrameSaid bytes.now result kind.new }
{
    cframe::frame_verdict(bytes, kind)
}
