// The numbers of an array pack, listed.
ghost use Rattle.std.specs.Prelude.{◌≡◌};
ghost use Rattle.verdict.specs.Answers.{said};
ghost use Rattle.carray.specs.Numbers.{numbers_of, NumbersBy};

use arrayreader::{ArrayRead, read};
use listing::list;
use verdict::Stop;

// NDim, eight sizes, E and the start of a pack.
fn numbers_of(pack: ArrayRead) -> [usize; 11]
    ensures { result ≡ numbers_of pack.dims pack.sizes pack.element pack.start }
{
    let sizes = pack.sizes;
    [
        pack.dims,
        sizes[0],
        sizes[1],
        sizes[2],
        sizes[3],
        sizes[4],
        sizes[5],
        sizes[6],
        sizes[7],
        pack.element,
        pack.start,
    ]
}

// The numbers of the pack that the bytes begin with, over the first entries of a list: the pack's length, or 13; where it is not complete, what reading it answers.
pub(crate) fn list_fields(bytes: &[u8], fields: &mut [usize]) -> Result<usize, Stop>
    ensures { NumbersBy bytes.now fields.old (said result) fields.new }
{
    let pack = read(bytes)?;
    list(Ok(pack.length), &numbers_of(pack), fields)
}
