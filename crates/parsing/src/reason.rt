// Why a line says no frame.
use crate::name::Name;
use listing::text::Printable;
use std::fmt;
use thiserror::Error;

#[derive(Clone, Copy, Debug, Error)]
pub enum Reason<'a> {
    // The first word is no name of a call.
    #[error("\"{0}\" is no call")]
    NoCall(Printable<'a>),
    // The name is not followed by what it takes.
    #[error("{}", Needs(*.0))]
    Takes(Name),
    // The field is no number as numbers are printed.
    #[error("\"{0}\" is no number")]
    NoNumber(Printable<'a>),
    // The number needs more than two bytes.
    #[error("{0} is above 65535")]
    TooLarge(Printable<'a>),
    // A character of a note is not a printable one.
    #[error("a note has characters from 32 to 126 only")]
    NoteText,
}

// What a name is followed by.
#[derive(Clone, Copy)]
struct Needs(Name);

impl fmt::Display for Needs {
    fn fmt<W: fmt::Write>(&self, f: &mut fmt::Formatter<W>) -> fmt::Result {
        let name = self.0;
        match name {
            Name::Start | Name::Post => write!(f, "{name} takes 3 numbers"),
            Name::Get => write!(f, "{name} takes 2 numbers"),
            Name::Off | Name::On | Name::Release | Name::Mend => {
                write!(f, "{name} takes 1 number")
            }
            Name::Seat => write!(f, "{name} takes no number"),
            Name::Note => write!(f, "a note has 1 to 60 characters"),
        }
    }
}
