// A matrix pack's fields as seven numbers, N, Cs, Cf, Clen, Sf, Slen and the mode: of what reading answers, and as a writer is given them.
ghost use Rattle.std.specs.Prelude.{◌≡◌, cond};
ghost use Rattle.matrix.specs.Listed.{field_numbers};
ghost use Rattle.cmatrix.specs.Inside.{fields_for};
ghost use Rattle.cmatrix.specs.Writing.{fields_fit};

use counts::bit_of;
use matrix::Fields;
use verdict::{Reason, Refusal};

// The mode as a number.
fn mode_of(mode1: bool) -> usize
    ensures { result ≡ cond mode1 1 2 }
{
    if mode1 { 1 } else { 2 }
}

pub(crate) fn field_numbers(fields: Fields) -> [usize; 7]
    ensures { result ≡ field_numbers fields }
{
    [
        fields.n,
        bit_of(fields.cs),
        bit_of(fields.cf),
        fields.clen,
        bit_of(fields.sf),
        fields.slen,
        mode_of(fields.mode1),
    ]
}

// Whether there are seven numbers, Cs, Cf and Sf are each yes or no, and the mode is 1 or 2.
fn fields_fit(fields: &[usize]) -> bool
    ensures { result ≡ fields_fit fields.now }
{
    if fields.len() < 7 {
        return false;
    }
    ((fields[1] <= 1) & ((fields[2] <= 1) & (fields[4] <= 1)))
        & ((1 <= fields[6]) & (fields[6] <= 2))
}

// The fields that seven numbers are, or the refusal of numbers that are none.
pub(crate) fn fields_given(fields: &[usize]) -> Result<Fields, Refusal>
    ensures { result ≡ fields_for fields.now }
{
    if !fields_fit(fields) {
        return Err(Reason::Disagree.at(0));
    }
    Ok(Fields {
        n: fields[0],
        clen: fields[3],
        slen: fields[5],
        cs: fields[1] == 1,
        cf: fields[2] == 1,
        sf: fields[4] == 1,
        mode1: fields[6] == 1,
    })
}
