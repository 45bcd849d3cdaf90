// The frame that a line says.
ghost use Rattle.std.specs.Prelude.{◌++◌};
ghost use Rattle.std.specs.Option.{option_map};
ghost use Rattle.frame.specs.Format.{content};
ghost use Rattle.parsing.specs.Line.{Says, Noted};
ghost use Rattle.parsing.specs.Names.{spelled};
ghost use Rattle.parsing.specs.Numbers.{Settles, seen};
ghost use Rattle.parsing.specs.Splits.{behind};

use crate::name::Name;
use crate::number::numbers;
use crate::reason::Reason;
use crate::split::{Parts, split};
use crate::within::all_within;
use call::Call;
use frame::frame::{Frame, LONGEST_NOTE};

// The text of a note.
fn note<'a>(rest: Option<&'a [u8]>) -> Result<&'a [u8], Reason<'a>>
    ensures { Settles (seen (λ x. x.now) result) (Noted (option_map (λ x. x.now) rest.entry)) }
{
    let Some(text) = rest else {
        return Err(Reason::Takes(Name::Note));
    };
    if text.is_empty() || text.len() > LONGEST_NOTE {
        return Err(Reason::Takes(Name::Note));
    }
    if !all_within(text, b' ', b'~') {
        return Err(Reason::NoteText);
    }
    Ok(text)
}

// The frame of a name and of what stands behind it.
fn frame_of<'a>(name: Name, rest: Option<&'a [u8]>) -> Result<Frame<'a>, Reason<'a>>
    ensures { Settles (seen content result) (Says (spelled name ++ behind 32 (option_map (λ x. x.now) rest.entry))) }
{
    match name {
        Name::Start => {
            let [items, lines, field] = numbers::<3>(name, rest)?;
            Ok(Frame::Start {
                items,
                lines,
                field,
            })
        }
        Name::Post => {
            let [item, line, word] = numbers::<3>(name, rest)?;
            Ok(Frame::Call(Call::Post { item, line, word }))
        }
        Name::Get => {
            let [item, line] = numbers::<2>(name, rest)?;
            Ok(Frame::Call(Call::Get { item, line }))
        }
        Name::Off => {
            let [bay] = numbers::<1>(name, rest)?;
            Ok(Frame::Call(Call::Off { bay }))
        }
        Name::On => {
            let [bay] = numbers::<1>(name, rest)?;
            Ok(Frame::Call(Call::On { bay }))
        }
        Name::Release => {
            let [bay] = numbers::<1>(name, rest)?;
            Ok(Frame::Call(Call::Release { bay }))
        }
        Name::Seat if rest.is_some() => Err(Reason::Takes(name)),
        Name::Seat => Ok(Frame::Call(Call::Seat)),
        Name::Mend => {
            let [bay] = numbers::<1>(name, rest)?;
            Ok(Frame::Call(Call::Mend { bay }))
        }
        Name::Note => Ok(Frame::Note(note(rest)?)),
    }
}

// The frame whose text the line is.
pub fn parse<'a>(line: &'a [u8]) -> Result<Frame<'a>, Reason<'a>>
    ensures { Settles (seen content result) (Says line.now) }
{
    let Parts { front, back } = split(line, b' ');
    frame_of(Name::try_from(front)?, back)
}
