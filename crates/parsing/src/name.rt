// The names that a line can begin with.
ghost use Rattle.std.specs.Prelude.{◌≡◌, ◌≢◌, Some, MatchResult};
ghost use Rattle.parsing.specs.Names.{spelled};

use crate::reason::Reason;
use listing::text::Printable;
use std::fmt;

#[derive(Clone, Copy, PartialEq, Eq, Debug)]
pub enum Name {
    Start,
    Post,
    Get,
    Off,
    On,
    Release,
    Seat,
    Mend,
    Note,
}

// The name that the word spells, if it spells one.
impl<'a> TryFrom<&'a [u8]> for Name {
    ghost use Rattle.parsing.specs.declared.name.Name.{Name};

    type Error = Reason<'a>;

    ghost try_from_gives = { λ word r. MatchResult r (λ name. word.now ≡ spelled name) (λ _. (name : Name) → word.now ≢ spelled name) };

    fn try_from(word: &'a [u8]) -> Result<Name, Reason<'a>> {
        match word {
            b"start" => Ok(Name::Start),
            b"post" => Ok(Name::Post),
            b"get" => Ok(Name::Get),
            b"off" => Ok(Name::Off),
            b"on" => Ok(Name::On),
            b"release" => Ok(Name::Release),
            b"seat" => Ok(Name::Seat),
            b"mend" => Ok(Name::Mend),
            b"note" => Ok(Name::Note),
            _ => Err(Reason::NoCall(Printable(word))),
        }
    }
}

impl fmt::Display for Name {
    ghost output = { λ name. Some (spelled name) };

    fn fmt<W: fmt::Write>(&self, f: &mut fmt::Formatter<W>) -> fmt::Result {
        f.write_str(match self {
            Name::Start => "start",
            Name::Post => "post",
            Name::Get => "get",
            Name::Off => "off",
            Name::On => "on",
            Name::Release => "release",
            Name::Seat => "seat",
            Name::Mend => "mend",
            Name::Note => "note",
        })
    }
}
