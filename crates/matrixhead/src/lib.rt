// What stands before the words of a matrix pack: its fields, and how many coefficients are sent.

#![tactic(auto)]

ghost use Rattle.std.specs.Prelude.{◌≡◌};
ghost use Rattle.matrixhead.specs.Beginning.{begun_of};

use crate::header::header;
use crate::vector::Header;
use counts::{header_bytes, vector_bytes};
use matrix::{Fields, Told};
use verdict::Stop;

mod control;
mod header;
pub mod judge;
mod vector;

// The fields, the place of the first word and how many coefficients are sent.
#[derive(Clone, Copy)]
pub struct Begun {
    pub fields: Fields,
    pub words: usize,
    pub sent: usize,
}

// What the bytes begin with, up to the first word, under what is told, or why there is no such beginning.
pub fn begin(bytes: &[u8], told: Told) -> Result<Begun, Stop>
    ensures { result ≡ begun_of told bytes.now }
{
    let fields = header(bytes, told)?;
    let head = Header { bytes, fields };
    let sent = head.sent()?;
    Ok(Begun {
        fields,
        words: header_bytes(fields) + vector_bytes(fields),
        sent,
    })
}
