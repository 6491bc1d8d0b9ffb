// Reading array packs: the verdict on a string of bytes, the numbers of a pack, and the offset of an element.
#![tactic(auto)]

ghost use Rattle.std.specs.Prelude.{◌≡◌};
ghost use Rattle.array.specs.Machine.{verdict_of};
ghost use Rattle.array.specs.Decoded.{meaning_of};
ghost use Rattle.arrayreader.specs.Reading.{sizes_of, array_read_of, address_in, address_of};
ghost use Rattle.arrayreader.specs.Again.{SizesTo};

use array::MOST;
use arraywalk::found_in;
use number::Numbers;
use verdict::{Reason, Stop, Verdict};

// The place behind NDim, which is one octet.
const SIZES: usize = 1;

// A whole array pack: NDim, the sizes, 0 past the last, E, the place of the array's first byte and the pack's length.
#[derive(Clone, Copy, PartialEq, Eq)]
pub struct ArrayRead {
    pub dims: usize,
    pub sizes: [usize; 8],
    pub element: usize,
    pub start: usize,
    pub length: usize,
}

// The verdict on a string of bytes as an array pack.
pub fn verdict(bytes: &[u8]) -> Verdict
    ensures { result ≡ verdict_of bytes.now }
{
    match found_in(bytes) {
        Ok(found) => Verdict::Complete(found.length),
        Err(stop) => Verdict::from(stop),
    }
}

// The sizes of a whole pack, drawn one after the other by a reader that keeps its place.
fn draw_again(bytes: &[u8], dims: usize) -> [usize; 8]
    requires { SizesTo bytes.now dims 0 1 }
    ensures { result ≡ sizes_of (meaning_of bytes.now).sizes }
{
    let mut numbers = Numbers::at(bytes, SIZES);
    let mut sizes = [0; 8];
    for count in 0..dims {
        numbers = numbers.draw(true, MOST, 1);
        if let Ok(size) = numbers.drawn {
            sizes[count] = size.value as usize;
        }
    }
    sizes
}

// NDim, the sizes, E, the start and the length of the array pack that the bytes begin with.
pub fn read(bytes: &[u8]) -> Result<ArrayRead, Stop>
    ensures { result ≡ array_read_of bytes.now }
{
    let found = found_in(bytes)?;
    let sizes = draw_again(bytes, found.dims);
    Ok(ArrayRead {
        dims: found.dims,
        sizes,
        element: found.element,
        start: found.start,
        length: found.length,
    })
}

// The offset of the element at these indices of a whole pack.
fn address_in(bytes: &[u8], dims: usize, element: usize, indices: &[usize]) -> Result<usize, Stop>
    requires { SizesTo bytes.now dims 0 1 × (element ≡ (meaning_of bytes.now).element) }
    ensures { result ≡ address_in (meaning_of bytes.now) indices.now }
{
    if indices.len() != dims {
        return Err(Stop::Refused(Reason::Index.at(0)));
    }
    let sizes = draw_again(bytes, dims);
    let mut offset = 0;
    for (i, &index) in indices.iter().enumerate() {
        let size = sizes[i];
        if size <= index {
            return Err(Stop::Refused(Reason::Index.at(0)));
        }
        offset = offset * size + index;
    }
    Ok(offset * element)
}

// The offset of an element from the start of the array, or refused 15.
pub fn address(bytes: &[u8], indices: &[usize]) -> Result<usize, Stop>
    ensures { result ≡ address_of bytes.now indices.now }
{
    let found = found_in(bytes)?;
    address_in(bytes, found.dims, found.element, indices)
}
