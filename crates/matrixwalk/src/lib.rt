// One pass over a matrix pack: what was found of a whole one, or why there is none.

#![tactic(auto)]

ghost use Rattle.std.specs.Prelude.{◌≡◌};
ghost use Rattle.matrixwalk.specs.Walk.{walked_of};
ghost use Rattle.matrixwalk.specs.Parts.{WordsAt, PastDeviations, WalkFrom};

use crate::ruled::Ruled;
use crate::words::pass;
use matrix::{Fields, Told};
use matrixhead::{Begun, begin};
use rule::rules::{Form, coefficient_rule, deviation_rule};
use verdict::Stop;

mod ruled;
mod words;

// A whole pack: its fields, the place of its first word, how many coefficients are sent, its length.
#[derive(Clone, Copy)]
pub struct Found {
    pub fields: Fields,
    pub words: usize,
    pub sent: usize,
    pub length: usize,
}

// Behind the deviations, which end at `place`.
fn from_coefficients(bytes: &[u8], begun: Begun, place: usize) -> Result<Found, Stop>
    requires { PastDeviations bytes.now begun.fields begun.words begun.sent place }
    ensures { WalkFrom bytes.now begun.fields begun.words begun.sent result }
{
    let f = begun.fields;
    let ruled = Ruled {
        form: Form {
            coefficients: true,
            mapped: f.cf,
            length: f.clen,
        },
        rule: coefficient_rule(f.cf, f.clen).unwrap(),
    };
    let length = pass(bytes, place, begun.sent, ruled, 0)?;
    Ok(Found {
        fields: f,
        words: begun.words,
        sent: begun.sent,
        length,
    })
}

// From the first word on.
fn from_deviations(bytes: &[u8], begun: Begun) -> Result<Found, Stop>
    requires { WordsAt bytes.now begun.fields begun.words begun.sent }
    ensures { WalkFrom bytes.now begun.fields begun.words begun.sent result }
{
    let f = begun.fields;
    let ruled = Ruled {
        form: Form {
            coefficients: false,
            mapped: f.sf,
            length: f.slen,
        },
        rule: deviation_rule(f.sf, f.slen).unwrap(),
    };
    let place = pass(bytes, begun.words, f.n, ruled, begun.sent * f.clen)?;
    from_coefficients(bytes, begun, place)
}

// What a walk over the bytes finds under what is told, for callers that read the words themselves.
pub fn found_in(bytes: &[u8], told: Told) -> Result<Found, Stop>
    ensures { result ≡ walked_of told bytes.now }
{
    let begun = begin(bytes, told)?;
    from_deviations(bytes, begun)
}
