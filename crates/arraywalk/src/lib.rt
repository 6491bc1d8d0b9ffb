// One pass over the numbers of an array pack: what was found of a whole one, or why there is none. The array itself is not looked at.
#![tactic(auto)]

ghost use Rattle.std.specs.Prelude.{◌≡◌, ◌≢◌, ℕ, ◌≤◌};
ghost use Rattle.verdict.specs.Machine.{bad};
ghost use Rattle.verdict.specs.Says.{Bytes};
ghost use Rattle.array.specs.Table.{processing};
ghost use Rattle.array.specs.Machine.{number, move};
ghost use Rattle.arraywalk.specs.Walk.{walked_of};
ghost use Rattle.arraywalk.specs.Parts.{DimsTo, SizedTo, SizingFrom, ElementTo, ProcessedTo, HeadingFrom, WalkFrom};

use array::MOST;
use number::{Number, Numbers, Undrawn, draw_from};
use verdict::{Reason, Stop};

// A whole pack: NDim, E, the place of the array's first byte, the length.
#[derive(Clone, Copy, PartialEq, Eq)]
pub struct Found {
    pub dims: usize,
    pub element: usize,
    pub start: usize,
    pub length: usize,
}

// The sizes drawn: how many, the place behind them, their product.
#[derive(Clone, Copy)]
pub(crate) struct Sized {
    pub dims: usize,
    pub place: usize,
    pub product: usize,
}

// All numbers drawn: the sizes, E, the place behind processing.
#[derive(Clone, Copy)]
pub(crate) struct Heading {
    pub sized: Sized,
    pub element: usize,
    pub start: usize,
}

// The sizes behind NDim, drawn one after the other by a reader that keeps its place.
fn draw_sizes(bytes: &[u8], dims: Number) -> Result<Sized, Stop>
    requires { Bytes bytes.now × DimsTo bytes.now dims.value dims.next }
    ensures { SizingFrom bytes.now result }
{
    let all = dims.value as usize;
    let mut numbers = Numbers::at(bytes, dims.next);
    let mut product: u32 = 1;
    for count in 0..all {
        numbers = numbers.draw(true, MOST, product);
        match numbers.drawn {
            Ok(size) => product *= size.value as u32,
            Err(Undrawn::Cut(_)) => return Err(Stop::Unfinished(all - count + 2)),
            Err(Undrawn::Refused(refusal)) => return Err(Stop::Refused(refusal)),
        }
    }
    Ok(Sized {
        dims: all,
        place: numbers.place,
        product: product as usize,
    })
}

// Why an octet that is not 1 is refused as processing.
fn processing_reason(octet: u8) -> Reason
    ensures { octet ≢ 1 → (total : ℕ) → move (number (processing total) 0) octet ≡ bad result }
{
    match octet {
        0 => Reason::Zero,
        0x80 => Reason::PaddedNumber,
        _ => Reason::Processing,
    }
}

// Processing behind E.
fn past_processing(bytes: &[u8], sized: Sized, element: Number) -> Result<Heading, Stop>
    requires { ElementTo bytes.now sized element.value element.next }
    ensures { HeadingFrom bytes.now result }
{
    let each = element.value as usize;
    let place = element.next;
    if bytes.len() <= place {
        return Err(Stop::Unfinished(1 + sized.product * each));
    }
    let octet = bytes[place];
    if octet == 1 {
        return Ok(Heading {
            sized,
            element: each,
            start: place + 1,
        });
    }
    Err(Stop::Refused(processing_reason(octet).at(place)))
}

// E and processing behind the sizes.
fn draw_element(bytes: &[u8], sized: Sized) -> Result<Heading, Stop>
    requires { SizedTo bytes.now sized.dims sized }
    ensures { HeadingFrom bytes.now result }
{
    let product = sized.product;
    match draw_from(bytes, sized.place, false, MOST, product as u32) {
        Ok(element) => past_processing(bytes, sized, element),
        Err(Undrawn::Cut(begun)) => Err(Stop::Unfinished(2 + product * (begun as usize * 128))),
        Err(Undrawn::Refused(refusal)) => Err(Stop::Refused(refusal)),
    }
}

// The array behind processing.
fn from_array(bytes: &[u8], heading: Heading) -> Result<Found, Stop>
    requires { ProcessedTo bytes.now heading }
    ensures { WalkFrom bytes.now result }
{
    let sized = heading.sized;
    let length = heading.start + sized.product * heading.element;
    if bytes.len() < length {
        return Err(Stop::Unfinished(length - bytes.len()));
    }
    Ok(Found {
        dims: sized.dims,
        element: heading.element,
        start: heading.start,
        length,
    })
}

// Behind NDim.
fn from_sizes(bytes: &[u8], dims: Number) -> Result<Found, Stop>
    requires { DimsTo bytes.now dims.value dims.next }
    ensures { WalkFrom bytes.now result }
{
    let sized = draw_sizes(bytes, dims)?;
    let heading = draw_element(bytes, sized)?;
    from_array(bytes, heading)
}

// What a walk over the bytes finds, for callers that read the sizes themselves.
pub fn found_in(bytes: &[u8]) -> Result<Found, Stop>
    ensures { result ≡ walked_of bytes.now }
{
    match draw_from(bytes, 0, true, 8, 1) {
        Ok(dims) => from_sizes(bytes, dims),
        Err(Undrawn::Cut(_)) => Err(Stop::Unfinished(4)),
        Err(Undrawn::Refused(refusal)) => Err(Stop::Refused(refusal)),
    }
}
