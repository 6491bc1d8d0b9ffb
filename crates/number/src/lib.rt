// BER-OID numbers: what each octet does to a number, drawing one at a place, and the reader that holds the lent bytes.
#![tactic(auto)]

ghost use Rattle.std.specs.Prelude.{◌≡◌, ◌+◌, ◌<◌, IfSome, length, Err};
ghost use Rattle.number.specs.Octet.{ended, gone_on, effect_of};
ghost use Rattle.number.specs.declared.Undrawn.TheVariants.{Cut};
ghost use Rattle.number.specs.Draw.{drawn_number, draw_at, limit_behind, place_behind, further};

use verdict::{Reason, Refusal};

// What one octet does to a number begun: it ends the number, or goes on with it.
#[derive(Clone, Copy, PartialEq, Eq)]
pub enum Effect {
    Ends(u64),
    GoesOn(u64),
}

// A number, and the place behind it.
#[derive(Clone, Copy, PartialEq, Eq)]
pub struct Number {
    pub value: u64,
    pub next: usize,
}

// Why no number was drawn: the bytes end within it, with so much of it begun, or it is refused.
#[derive(Clone, Copy, PartialEq, Eq)]
pub enum Undrawn {
    Cut(u64),
    Refused(Refusal),
}

// A number's value with its last octet.
fn end(value: u64, positive: bool, most: u64) -> Result<Effect, Reason>
    ensures { result ≡ ended positive most value }
{
    if most < value {
        return Err(Reason::TooLarge);
    }
    if 0 < value {
        return Ok(Effect::Ends(value));
    }
    if positive {
        return Err(Reason::Zero);
    }
    Ok(Effect::Ends(value))
}

// A number's value with an octet behind which more follow.
fn go_on(value: u64, most: u64) -> Result<Effect, Reason>
    ensures { result ≡ gone_on most value }
{
    if value == 0 {
        return Err(Reason::PaddedNumber);
    }
    if most / 128 < value {
        return Err(Reason::TooLarge);
    }
    Ok(Effect::GoesOn(value))
}

// One octet's effect on a number begun with `value`, 0 where no octet was taken, that is to be at most `most` and, if `positive`, 1 or more.
fn effect_of(octet: u8, value: u64, positive: bool, most: u64) -> Result<Effect, Reason>
    ensures { result ≡ effect_of octet value positive most }
{
    // Past this the sums below cannot wrap.
    if most / 128 < value {
        return Err(Reason::TooLarge);
    }
    let bits = u64::from(octet);
    if bits < 128 {
        end(value * 128 + bits, positive, most)
    } else {
        go_on(value * 128 + (bits - 128), most)
    }
}

// The number at a place of the bytes, octet by octet.
fn draw_long(bytes: &[u8], place: usize, positive: bool, most: u64) -> Result<Number, Undrawn>
    ensures { result ≡ draw_at bytes.now place positive most }
{
    let mut value: u64 = 0;
    for at in place..bytes.len() {
        match effect_of(bytes[at], value, positive, most) {
            Ok(Effect::Ends(whole)) => {
                return Ok(Number {
                    value: whole,
                    next: at + 1,
                });
            }
            Ok(Effect::GoesOn(begun)) => value = begun,
            Err(reason) => return Err(Undrawn::Refused(reason.at(at))),
        }
    }
    Err(Undrawn::Cut(value))
}

// How great a number may be behind a product; the first takes no division.
fn limit_behind(most: u32, product: u32) -> u64
    ensures { result ≡ limit_behind most product }
{
    if product == 0 {
        return 0xFFFF_FFFF;
    }
    if product == 1 {
        return u64::from(most);
    }
    u64::from(most / product)
}

// A number of one octet that keeps the limit behind a product, which takes no division.
fn draw_short(bytes: &[u8], place: usize, positive: bool, most: u32, product: u32) -> Option<u64>
    ensures { IfSome result (λ value. (place < length bytes.now) × (drawn_number value (place + 1) ≡ draw_at bytes.now place positive (limit_behind most product))) }
{
    let octet = u64::from(*bytes.get(place)?);
    if 128 <= octet {
        return None;
    }
    if u64::from(most) < u64::from(product) * octet {
        return None;
    }
    if octet == 0 && positive {
        return None;
    }
    Some(octet)
}

// The number at a place of the bytes.
fn draw_at(
    bytes: &[u8],
    place: usize,
    positive: bool,
    most: u32,
    product: u32,
) -> Result<Number, Undrawn>
    ensures { result ≡ draw_at bytes.now place positive (limit_behind most product) }
{
    match draw_short(bytes, place, positive, most, product) {
        Some(value) => Ok(Number {
            value,
            next: place + 1,
        }),
        None => draw_long(bytes, place, positive, limit_behind(most, product)),
    }
}

// The place behind what was drawn at a place.
fn place_behind(drawn: Result<Number, Undrawn>, place: usize) -> usize
    ensures { result ≡ place_behind drawn place }
{
    match drawn {
        Ok(number) => number.next,
        Err(_) => place,
    }
}

// The reader: the lent bytes, the place in them at which the next number stands, and what was drawn last.
#[derive(Clone, Copy)]
pub struct Numbers<'a> {
    pub bytes: &'a [u8],
    pub place: usize,
    pub drawn: Result<Number, Undrawn>,
}

impl<'a> Numbers<'a> {
    // The reader at a place, before a draw.
    pub fn at(bytes: &'a [u8], place: usize) -> Numbers<'a>
        ensures { result ≡ record { bytes = bytes.entry; place = place; drawn = Err (Cut 0) } }
    {
        Numbers {
            bytes,
            place,
            drawn: Err(Undrawn::Cut(0)),
        }
    }

    // The reader one number further on: a number that with a product of others is at most `most` and, if `positive`, 1 or more.
    pub fn draw(self, positive: bool, most: u32, product: u32) -> Numbers<'a>
        ensures { result ≡ further self.entry positive (limit_behind most product) }
    {
        let drawn = draw_at(self.bytes, self.place, positive, most, product);
        let place = place_behind(drawn, self.place);
        Numbers {
            bytes: self.bytes,
            place,
            drawn,
        }
    }
}

// What the reader finds at a place, for callers that hold the bytes themselves.
pub fn draw_from(
    bytes: &[u8],
    place: usize,
    positive: bool,
    most: u32,
    product: u32,
) -> Result<Number, Undrawn>
    ensures { result ≡ draw_at bytes.now place positive (limit_behind most product) }
{
    Numbers::at(bytes, place)
        .draw(positive, most, product)
        .drawn
}
