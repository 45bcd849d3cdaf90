// A round that is written as text, a call to a line, made into the bytes of a round file.
#![tactic(auto)]

ghost use Rattle.std.specs.Prelude.{◌≡◌};
ghost use Rattle.composing.specs.Composed.{silent, Made, Answers};
ghost use Rattle.composing.specs.declared.ComposeError.TheVariants.{Memory};

use frame::encode::{WriteFault, encode};
use input::LONGEST_FILE;
use parsing::parse::parse;
use parsing::reason::Reason;
use std::alloc::{AllocError, Global};
use thiserror::Error;

// Why a text is not made into a round file.
#[derive(Clone, Copy, Debug, Error)]
pub enum ComposeError<'a> {
    // The line, counted from 1, is no text of a frame.
    #[error("line {number}: {reason}")]
    Line { number: usize, reason: Reason<'a> },
    // With the frame of this line the file is longer than a round file may be.
    #[error("line {number}: the round file has more than 32768 bytes")]
    TooLong { number: usize },
    // There is no memory for the bytes.
    #[error("no memory")]
    Memory,
}

// Written out, since a derived `From` says nothing of its result.
impl<'a> From<AllocError> for ComposeError<'a> {
    ghost from_gives = { λ _ r. r ≡ Memory };

    fn from(_error: AllocError) -> ComposeError<'a> {
        ComposeError::Memory
    }
}

// What a line says can always be written, so only memory can be wanting.
impl<'a> From<WriteFault> for ComposeError<'a> {
    ghost from_gives = { λ _ r. r ≡ Memory };

    fn from(_fault: WriteFault) -> ComposeError<'a> {
        Self::Memory
    }
}

// An empty line and a comment say nothing.
fn is_silent(line: &[u8]) -> bool
    ensures { result ≡ silent line.now }
{
    match line {
        [] => true,
        [first, ..] => *first == b'#',
    }
}

// The bytes of the frame that a line says; the line has this number.
fn bytes_of_line<'a>(
    heap: Global,
    number: usize,
    line: &'a [u8],
) -> Result<Vec<u8>, ComposeError<'a>>
    ensures { Made line.now number result }
{
    let frame = parse(line).map_err(|reason| ComposeError::Line { number, reason })?;
    Ok(encode(heap, frame)?)
}

// The bytes of the round file that the text says.
pub fn compose<'a>(heap: Global, text: &'a [u8]) -> Result<Vec<u8>, ComposeError<'a>>
    ensures { Answers text.now result }
{
    let mut file = Vec::new(heap);
    for (before, line) in text.split(|byte| *byte == b'\n').enumerate() {
        if is_silent(line) {
            continue;
        }
        let number = before + 1;
        let bytes = bytes_of_line(heap, number, line)?;
        if file.len() + bytes.len() > LONGEST_FILE {
            return Err(ComposeError::TooLong { number });
        }
        file.extend_from_slice(bytes.as_slice())?;
    }
    Ok(file)
}
