// The kinds of frames, each with its number in a file.
ghost use Rattle.std.specs.Prelude.{◌≡◌};
ghost use Rattle.frame.specs.Kinds.{number_of, Decodes};

use thiserror::Error;

// The kinds that are known: a start, a case for each call, and a note.
#[derive(Clone, Copy, PartialEq, Eq, Debug)]
pub enum Kind {
    Start,
    Post,
    Get,
    Off,
    On,
    Release,
    Seat,
    Mend,
    Note,
}

// A number that no known kind has. A frame may have it nevertheless: it is then of an unknown kind.
#[derive(Clone, Copy, PartialEq, Eq, Debug, Error)]
#[error("no known kind of frame has the number {0}")]
pub struct UnknownKind(pub u16);

impl TryFrom<u16> for Kind {
    type Error = UnknownKind;

    ghost try_from_gives = { Decodes };

    fn try_from(number: u16) -> Result<Kind, UnknownKind> {
        match number {
            1 => Ok(Kind::Start),
            2 => Ok(Kind::Post),
            3 => Ok(Kind::Get),
            4 => Ok(Kind::Off),
            5 => Ok(Kind::On),
            6 => Ok(Kind::Release),
            7 => Ok(Kind::Seat),
            8 => Ok(Kind::Mend),
            9 => Ok(Kind::Note),
            _ => Err(UnknownKind(number)),
        }
    }
}

impl From<Kind> for u16 {
    ghost from_gives = { λ kind number. number ≡ number_of kind };

    fn from(kind: Kind) -> u16 {
        match kind {
            Kind::Start => 1,
            Kind::Post => 2,
            Kind::Get => 3,
            Kind::Off => 4,
            Kind::On => 5,
            Kind::Release => 6,
            Kind::Seat => 7,
            Kind::Mend => 8,
            Kind::Note => 9,
        }
    }
}
