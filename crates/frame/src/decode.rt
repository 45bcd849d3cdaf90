// A frame's kind and body, and what they say.
ghost use Rattle.std.specs.Prelude.{◌≡◌};
ghost use Rattle.std.specs.Option.{option_map};
ghost use Rattle.frame.specs.Format.{number as pair, content, meant};

use crate::frame::{Call, Frame, LONGEST_NOTE};
use crate::kind::Kind;

// Two bytes of a body, the low one first.
pub(crate) fn number(low: u8, high: u8) -> u16
    ensures { result ≡ pair low high }
{
    u16::from_le_bytes([low, high])
}

// What a frame says, or nothing where the body's length is wrong for the kind.
pub(crate) fn decode<'a>(kind: u16, body: &'a [u8]) -> Option<Frame<'a>>
    ensures { option_map content result ≡ meant kind body.now }
{
    let Ok(known) = Kind::try_from(kind) else {
        return Some(Frame::Unknown { kind, body });
    };
    match (known, body) {
        (Kind::Start, [a, b, c, d, e, f]) => Some(Frame::Start {
            items: number(*a, *b),
            lines: number(*c, *d),
            field: number(*e, *f),
        }),
        (Kind::Post, [a, b, c, d, e, f]) => Some(Frame::Call(Call::Post {
            item: number(*a, *b),
            line: number(*c, *d),
            word: number(*e, *f),
        })),
        (Kind::Get, [a, b, c, d]) => Some(Frame::Call(Call::Get {
            item: number(*a, *b),
            line: number(*c, *d),
        })),
        (Kind::Off, [a, b]) => Some(Frame::Call(Call::Off {
            bay: number(*a, *b),
        })),
        (Kind::On, [a, b]) => Some(Frame::Call(Call::On {
            bay: number(*a, *b),
        })),
        (Kind::Release, [a, b]) => Some(Frame::Call(Call::Release {
            bay: number(*a, *b),
        })),
        (Kind::Seat, []) => Some(Frame::Call(Call::Seat)),
        (Kind::Mend, [a, b]) => Some(Frame::Call(Call::Mend {
            bay: number(*a, *b),
        })),
        (Kind::Note, [_, ..]) if body.len() <= LONGEST_NOTE => Some(Frame::Note(body)),
        _ => None,
    }
}
