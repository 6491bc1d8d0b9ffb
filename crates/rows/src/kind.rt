// What a row asks of its bytes, and the letters that stand for it.

// The kind of pack that a row is about.
#[derive(Clone, Copy, PartialEq, Eq)]
pub(crate) enum Pack {
    Matrix,
    Array,
}

// What a row asks.
#[derive(Clone, Copy, PartialEq, Eq)]
pub(crate) enum Kind {
    // "S HEX", "M HEX": the verdict on a matrix pack, on an array pack.
    Verdict(Pack),
    // "s HEX", "m HEX": the same, behind the verdicts on every beginning.
    Beginnings(Pack),
    // "A HEX COUNT INDEX ..": an array pack of these bytes and so many of 0, read and addressed.
    Address,
    // "P HEX COUNT": the verdict on a frame of these bytes and so many of 0.
    Frame,
    // "U HEX D C M": a matrix pack unpacked into lists of these lengths.
    Unpack,
    // "E HEX W M": a matrix pack expanded into lists of these lengths.
    Expand,
    // "C HEX": the scaled coefficients of a matrix pack.
    ScalePack,
    // "K HEX LENGTH ROOM": words in eight bytes each, scaled by this length into a list of this room.
    ScaleWords,
    // "R HEX", "Q HEX": a matrix pack, an array pack, read and written again.
    Again(Pack),
    // "W HEX", "X HEX": the matrix, the array that these bytes give is written.
    Write(Pack),
}

// A letter that stands for no kind.
#[derive(Clone, Copy, PartialEq, Eq)]
pub(crate) struct UnknownKind(pub(crate) u8);

impl TryFrom<u8> for Kind {
    type Error = UnknownKind;

    fn try_from(letter: u8) -> Result<Kind, UnknownKind> {
        match letter {
            b'S' => Ok(Kind::Verdict(Pack::Matrix)),
            b'M' => Ok(Kind::Verdict(Pack::Array)),
            b's' => Ok(Kind::Beginnings(Pack::Matrix)),
            b'm' => Ok(Kind::Beginnings(Pack::Array)),
            b'A' => Ok(Kind::Address),
            b'P' => Ok(Kind::Frame),
            b'U' => Ok(Kind::Unpack),
            b'E' => Ok(Kind::Expand),
            b'C' => Ok(Kind::ScalePack),
            b'K' => Ok(Kind::ScaleWords),
            b'R' => Ok(Kind::Again(Pack::Matrix)),
            b'Q' => Ok(Kind::Again(Pack::Array)),
            b'W' => Ok(Kind::Write(Pack::Matrix)),
            b'X' => Ok(Kind::Write(Pack::Array)),
            _ => Err(UnknownKind(letter)),
        }
    }
}

// A row of a letter that stands for no kind is one of S, and behind Z one of s.
impl From<UnknownKind> for Kind {
    fn from(unknown: UnknownKind) -> Kind {
        if unknown.0 > b'Z' {
            Kind::Beginnings(Pack::Matrix)
        } else {
            Kind::Verdict(Pack::Matrix)
        }
    }
}

impl From<Kind> for u8 {
    fn from(kind: Kind) -> u8 {
        match kind {
            Kind::Verdict(Pack::Matrix) => b'S',
            Kind::Verdict(Pack::Array) => b'M',
            Kind::Beginnings(Pack::Matrix) => b's',
            Kind::Beginnings(Pack::Array) => b'm',
            Kind::Address => b'A',
            Kind::Frame => b'P',
            Kind::Unpack => b'U',
            Kind::Expand => b'E',
            Kind::ScalePack => b'C',
            Kind::ScaleWords => b'K',
            Kind::Again(Pack::Matrix) => b'R',
            Kind::Again(Pack::Array) => b'Q',
            Kind::Write(Pack::Matrix) => b'W',
            Kind::Write(Pack::Array) => b'X',
        }
    }
}
