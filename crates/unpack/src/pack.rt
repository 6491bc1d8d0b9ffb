// A whole pack, and the marks of its pairs.
ghost use Rattle.std.specs.Prelude.{◌≡◌, ◌<◌, get_or};
ghost use Rattle.matrix.specs.Meaning.{pairs};
ghost use Rattle.matrix.specs.Header.{header_bytes};
ghost use Rattle.unpack.specs.Found.{meaning_found, Whole};

use counts::mark_of;
use matrixwalk::Found;

// The bytes, and what a walk found in them: a lawful pack.
#[derive(Clone, Copy)]
pub(crate) struct Pack<'a> {
    pub bytes: &'a [u8],
    pub found: Found,
    ghost whole: { Whole bytes.now found },
}

impl<'a> Pack<'a> {
    // The mark of a pair: its bit of the vector behind the header, or whether coefficients have bytes.
    pub(crate) fn mark_at(self, start: usize, pair: usize) -> u8
        requires { (start ≡ header_bytes self.found.fields) × (pair < pairs self.found.fields.n) }
        ensures { result ≡ get_or (meaning_found self.entry.bytes.now self.entry.found).marks pair 0 }
    {
        if self.found.fields.cs {
            return (self.bytes[start + pair / 8] >> (7 - pair % 8)) % 2;
        }
        mark_of(self.found.fields.clen)
    }
}
