// What is replied to a frame of a round file, and its line of text.
#![tactic(auto)]

ghost use Rattle.std.specs.Prelude.{◌≡◌, ◌++◌, Some, string_bytes, OnOk};
ghost use Rattle.replies.specs.Lines.{said, said_text, line as line_of};

use fault::fault::Fault;
use listing::text::Printable;
use std::alloc::AllocError;
use std::fmt;

// The reply to a frame. A note's text is borrowed from the file. Three of its texts are those of a bank's answer; a call that is
// not allowed is refused here, with a place in the file, so an answer is not a part of it.
#[derive(Clone, Copy)]
pub enum Reply<'a> {
    // The call is done.
    Done,
    // The word that a get asked for.
    Word(u16),
    Note(&'a [u8]),
    // A frame of an unknown kind is skipped; the number is the length of its body.
    Skip(usize),
    Refused(Fault),
}

impl fmt::Display for Reply<'_> {
    ghost output = { λ x. Some (said_text (said x)) };

    fn fmt<W: fmt::Write>(&self, f: &mut fmt::Formatter<W>) -> fmt::Result {
        match self {
            Reply::Done => write!(f, "ok"),
            Reply::Word(word) => write!(f, "word {word}"),
            Reply::Note(text) => {
                let text = Printable(text);
                write!(f, "note {text}")
            }
            Reply::Skip(length) => write!(f, "skip {length}"),
            Reply::Refused(fault) => write!(f, "no {fault}"),
        }
    }
}

// Adds the line of a frame's reply to a text.
pub fn add_line(text: &mut String, number: usize, reply: Reply<'_>) -> Result<(), AllocError>
    ensures { OnOk result (string_bytes text.new ≡ string_bytes text.old ++ line_of number (said reply.entry)) }
{
    writeln!(text, "{number} {reply}")
}
