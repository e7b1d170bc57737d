ghost use Rattle.std.specs.Prelude.{◌≡◌};
ghost use Rattle.rules.specs.Kinds.{kind_number, kind_or_unknown};
ghost use Rattle.rules.specs.Words.{kind_word};

use crate::unknown::UnknownNumber;

// What a message is for.
#[derive(Clone, Copy, PartialEq, Eq, Debug)]
pub enum Kind {
    Write = 1,
    ReadRequest = 2,
    ReadResponse = 3,
    FenceRequest = 4,
    FenceResponse = 5,
    WriteAck = 6,
    Drop = 7,
}

impl From<Kind> for u8 {
    ghost from_gives = { λ k n. n ≡ kind_number k };

    fn from(kind: Kind) -> u8 {
        kind as u8
    }
}

impl TryFrom<u8> for Kind {
    type Error = UnknownNumber;

    ghost try_from_gives = { λ n r. r ≡ kind_or_unknown n };

    fn try_from(number: u8) -> Result<Kind, UnknownNumber> {
        match number {
            1 => Ok(Kind::Write),
            2 => Ok(Kind::ReadRequest),
            3 => Ok(Kind::ReadResponse),
            4 => Ok(Kind::FenceRequest),
            5 => Ok(Kind::FenceResponse),
            6 => Ok(Kind::WriteAck),
            7 => Ok(Kind::Drop),
            _ => Err(UnknownNumber(number)),
        }
    }
}

impl Kind {
    // The word of a kind.
    pub fn word(self) -> &'static [u8]
        ensures { result.now ≡ kind_word self }
    {
        match self {
            Kind::Write => b"WRITE",
            Kind::ReadRequest => b"RREQ",
            Kind::ReadResponse => b"RRESP",
            Kind::FenceRequest => b"FREQ",
            Kind::FenceResponse => b"FRESP",
            Kind::WriteAck => b"WRITE_ACK",
            Kind::Drop => b"DROP",
        }
    }
}
