// The bytes of a frame.
ghost use Rattle.std.specs.Prelude.{◌≡◌, ◌<◌, ◌++◌, length, IfOk};
ghost use Rattle.frame.specs.declared.encode.WriteFault.TheVariants.{Memory};
ghost use Rattle.std.specs.List.{flat_map};
ghost use Rattle.frame.specs.Format.{two, framed, content, bytes_of, call as said};
ghost use Rattle.frame.specs.Kinds.{number_of};
ghost use Rattle.frame.specs.Writing.{Written, ReadsBack};

use crate::frame::{Call, Frame, HEAD, LONGEST_BODY, LONGEST_NOTE};
use crate::kind::Kind;
use std::alloc::{AllocError, Global};
use thiserror::Error;

// Why a frame cannot be written.
#[derive(Clone, Copy, PartialEq, Eq, Debug, Error)]
pub enum WriteFault {
    // No file can say it: a note that is empty or longer than 60 bytes, a body of 65,536 bytes or more,
    // or a known kind as an unknown one.
    #[error("no file can say the frame")]
    Improper,
    // There is no memory for the bytes.
    #[error("no memory")]
    Memory,
}

// Written out, since a derived `From` says nothing of its result.
impl From<AllocError> for WriteFault {
    ghost from_gives = { λ _ r. r ≡ Memory };

    fn from(_error: AllocError) -> WriteFault {
        WriteFault::Memory
    }
}

// The head of a frame of this kind: the length of the body and the kind, two bytes each. Behind it is room for the body.
fn head(heap: Global, kind: u16, length: usize) -> Result<Vec<u8>, AllocError>
    requires { length < 65536 }
    ensures { IfOk result (λ v. v.items ≡ two length ++ two kind) }
{
    let [a, b] = (length as u16).to_le_bytes();
    let [c, d] = kind.to_le_bytes();
    let mut frame = Vec::with_capacity(heap, HEAD + length)?;
    frame.extend_from_slice(&[a, b, c, d])?;
    Ok(frame)
}

// A frame of this kind around the body.
fn around(heap: Global, kind: u16, body: &[u8]) -> Result<Vec<u8>, AllocError>
    requires { length body.now < 65536 }
    ensures { IfOk result (λ v. v.items ≡ framed kind body.now) }
{
    let mut frame = head(heap, kind, body.len())?;
    frame.extend_from_slice(body)?;
    Ok(frame)
}

// A frame of this kind around the numbers.
fn around_numbers(heap: Global, kind: Kind, numbers: &[u16]) -> Result<Vec<u8>, AllocError>
    requires { length numbers.now < 32768 }
    ensures { IfOk result (λ v. v.items ≡ framed (number_of kind) (flat_map two numbers.now)) }
{
    let mut frame = head(heap, kind.into(), 2 * numbers.len())?;
    for number in numbers {
        frame.extend_from_slice(&number.to_le_bytes())?;
    }
    Ok(frame)
}

fn encode_call(heap: Global, call: Call) -> Result<Vec<u8>, AllocError>
    ensures { IfOk result (λ v. v.items ≡ bytes_of (said call)) }
{
    match call {
        Call::Post { item, line, word } => around_numbers(heap, Kind::Post, &[item, line, word]),
        Call::Get { item, line } => around_numbers(heap, Kind::Get, &[item, line]),
        Call::Off { bay } => around_numbers(heap, Kind::Off, &[bay]),
        Call::On { bay } => around_numbers(heap, Kind::On, &[bay]),
        Call::Release { bay } => around_numbers(heap, Kind::Release, &[bay]),
        Call::Seat => around_numbers(heap, Kind::Seat, &[]),
        Call::Mend { bay } => around_numbers(heap, Kind::Mend, &[bay]),
    }
}

// The bytes of a frame. A reader gives the frame back, wherever they stand in a file.
pub fn encode(heap: Global, frame: Frame<'_>) -> Result<Vec<u8>, WriteFault>
    ensures bytes { Written (content frame.entry) result }
    ensures back { IfOk result (λ v. ReadsBack (content frame.entry) v.items) }
{
    match frame {
        Frame::Start {
            items,
            lines,
            field,
        } => Ok(around_numbers(heap, Kind::Start, &[items, lines, field])?),
        Frame::Call(call) => Ok(encode_call(heap, call)?),
        Frame::Note(text) if !text.is_empty() && text.len() <= LONGEST_NOTE => {
            Ok(around(heap, Kind::Note.into(), text)?)
        }
        Frame::Unknown { kind, body }
            if Kind::try_from(kind).is_err() && body.len() <= LONGEST_BODY => {
            Ok(around(heap, kind, body)?)
        }
        _ => Err(WriteFault::Improper),
    }
}
