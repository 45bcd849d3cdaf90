// A round file as text: a line for each frame, with its number and what it says.
#![tactic(auto)]

ghost use Rattle.std.specs.Prelude.{◌≡◌, IfOk, Some, string_bytes};
ghost use Rattle.frame.specs.Reading.{told};
ghost use Rattle.listing.specs.Lines.{line_text, Listed};

use crate::text::FrameText;
use fault::fault::{Fault, FileFault};
use frame::frame::Frame;
use frame::reader::Reader;
use std::alloc::{AllocError, Global};
use std::fmt;
use std::fmt::Write;

pub mod text;

// The line of one frame.
#[derive(Clone, Copy)]
struct Line<'a> {
    number: usize,
    answer: Result<Frame<'a>, FileFault>,
}

impl fmt::Display for Line<'_> {
    ghost output = { λ x. Some (line_text x.number (told x.answer)) };

    fn fmt<W: fmt::Write>(&self, f: &mut fmt::Formatter<W>) -> fmt::Result {
        let number = self.number;
        match self.answer {
            Ok(frame) => write!(f, "{number} {}", FrameText(frame)),
            Err(fault) => write!(f, "{number} no {}", Fault::from(fault)),
        }
    }
}

// The lines of a whole file.
pub fn list(heap: Global, file: &[u8]) -> Result<String, AllocError>
    ensures { IfOk result (λ text. Listed file.now (string_bytes text)) }
{
    let mut text = String::new(heap);
    for (number, answer) in Reader::new(file).enumerate() {
        writeln!(text, "{}", Line { number, answer })?;
    }
    Ok(text)
}
