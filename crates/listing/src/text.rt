// Frames as text.
ghost use Rattle.std.specs.Prelude.{◌≡◌, map, Some};
ghost use Rattle.frame.specs.Format.{content, call as said};
ghost use Rattle.listing.specs.Text.{visible as shown_as, says};

use frame::frame::{Call, Frame};
use std::fmt;

// Bytes as text, with a full stop for each that is not a printable ASCII character.
#[derive(Clone, Copy, Debug)]
pub struct Printable<'a>(pub &'a [u8]);

fn visible(byte: u8) -> char
    ensures { result ≡ shown_as byte }
{
    match byte {
        32..=126 => byte as char,
        _ => '.',
    }
}

impl fmt::Display for Printable<'_> {
    ghost output = { λ x. Some (map shown_as x.0.now) };

    fn fmt<W: fmt::Write>(&self, f: &mut fmt::Formatter<W>) -> fmt::Result {
        for byte in self.0 {
            f.write_char(visible(*byte))?;
        }
        Ok(())
    }
}

// A call as text: its name and its numbers.
#[derive(Clone, Copy)]
struct CallText(Call);

impl fmt::Display for CallText {
    ghost output = { λ x. Some (says (said x.0)) };

    fn fmt<W: fmt::Write>(&self, f: &mut fmt::Formatter<W>) -> fmt::Result {
        match self.0 {
            Call::Post { item, line, word } => write!(f, "post {item} {line} {word}"),
            Call::Get { item, line } => write!(f, "get {item} {line}"),
            Call::Off { bay } => write!(f, "off {bay}"),
            Call::On { bay } => write!(f, "on {bay}"),
            Call::Release { bay } => write!(f, "release {bay}"),
            Call::Seat => write!(f, "seat"),
            Call::Mend { bay } => write!(f, "mend {bay}"),
        }
    }
}

// A frame as text: a call, or `note` and the text, or `skip` and the length of a body of an unknown kind.
#[derive(Clone, Copy)]
pub struct FrameText<'a>(pub Frame<'a>);

impl fmt::Display for FrameText<'_> {
    ghost output = { λ x. Some (says (content x.0)) };

    fn fmt<W: fmt::Write>(&self, f: &mut fmt::Formatter<W>) -> fmt::Result {
        match self.0 {
            Frame::Start {
                items,
                lines,
                field,
            } => write!(f, "start {items} {lines} {field}"),
            Frame::Call(call) => write!(f, "{}", CallText(call)),
            Frame::Note(text) => write!(f, "note {}", Printable(text)),
            Frame::Unknown { body, .. } => write!(f, "skip {}", body.len()),
        }
    }
}
