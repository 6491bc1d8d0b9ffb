// The control fields from their bytes, and the counts that follow from the fields.
ghost use Rattle.std.specs.Prelude.{◌≡◌, ◌≤◌};
ghost use Rattle.matrix.specs.Meaning.{LawfulFirst};
ghost use Rattle.matrix.specs.Header.{first, second, single};
ghost use Rattle.matrix.specs.Machine.{least_for, shortest, least_behind, least_values};

use counts::{pairs_of, vector_bytes};
use matrix::{Fields, Told};

// How many variables a matrix has, by the rules of its size.
#[derive(Clone, Copy)]
pub(crate) struct Size {
    pub n: usize,
    ghost lawful: { (1 ≤ n) × (n ≤ 64) },
}

impl Size {
    // The fewest bytes of values, where a deviation has so many at least.
    fn least_for(self, each: usize) -> usize
        requires { each ≤ 2 }
        ensures { result ≡ least_for each self.n }
    {
        if self.n == 1 {
            return each;
        }
        let m = pairs_of(self.n);
        (self.n * each).min(m.min((m + 7) / 8 + 1))
    }

    // The fewest bytes behind the size.
    pub(crate) fn least_behind(self, told: Told) -> usize
        ensures { result ≡ least_behind told self.n }
    {
        let two = 2 + self.least_for(1);
        if !told.mode1 {
            return two;
        }
        (1 + self.least_for(shortest_of(told.mapped))).min(two)
    }
}

// The size with what control byte 1 says.
pub(crate) fn first_of(n: usize, c: usize) -> Fields
    ensures { result ≡ first n c }
{
    Fields {
        n,
        clen: c % 16,
        slen: 0,
        cs: c / 32 % 2 == 1,
        cf: c / 16 % 2 == 1,
        sf: false,
        mode1: false,
    }
}

// And with what control byte 2 says.
pub(crate) fn second_of(f: Fields, d: usize) -> Fields
    ensures { result ≡ second f d }
{
    Fields {
        slen: d % 16,
        sf: d / 16 % 2 == 1,
        ..f
    }
}

// The size with what Mode 1's control byte says.
pub(crate) fn single_of(told: Told, n: usize, c: usize) -> Fields
    ensures { result ≡ single told n c }
{
    Fields {
        n,
        clen: c % 8,
        slen: c / 16 % 8,
        cs: c / 8 % 2 == 1,
        cf: true,
        sf: told.mapped,
        mode1: true,
    }
}

// The fewest bytes of a deviation.
fn shortest_of(mapped: bool) -> usize
    ensures { result ≡ shortest mapped }
{
    if mapped { 1 } else { 2 }
}

// The fewest bytes of values behind control byte 1.
pub(crate) fn least_values(f: Fields) -> usize
    requires { LawfulFirst f }
    ensures { result ≡ least_values f }
{
    if f.cs {
        return vector_bytes(f) + f.clen.min(f.n);
    }
    if f.clen == 0 {
        return f.n;
    }
    pairs_of(f.n) * f.clen
}
