// Reading matrix packs: the verdict on a string of bytes, and the fields of a pack.

#![tactic(auto)]

ghost use Rattle.std.specs.Prelude.{◌≡◌};
ghost use Rattle.matrix.specs.Machine.{verdict_of};
ghost use Rattle.matrixreader.specs.Reading.{matrix_read_of};

use matrix::{Fields, Told};
use matrixwalk::found_in;
use verdict::{Stop, Verdict};

// What reading a whole matrix pack answers: its fields and its length.
#[derive(Clone, Copy)]
pub struct MatrixRead {
    pub fields: Fields,
    pub length: usize,
}

// The verdict on a string of bytes as a matrix pack, under what is told.
pub fn verdict(bytes: &[u8], told: Told) -> Verdict
    ensures { result ≡ verdict_of told bytes.now }
{
    match found_in(bytes, told) {
        Ok(found) => Verdict::Complete(found.length),
        Err(stop) => Verdict::from(stop),
    }
}

// The size, the control fields and the mode of the matrix pack that the bytes begin with, or why there is no whole one.
pub fn read(bytes: &[u8], told: Told) -> Result<MatrixRead, Stop>
    ensures { result ≡ matrix_read_of told bytes.now }
{
    let found = found_in(bytes, told)?;
    Ok(MatrixRead {
        fields: found.fields,
        length: found.length,
    })
}
