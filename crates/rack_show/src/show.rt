// What is printed of a rack and of an answer.
ghost use Rattle.std.specs.Prelude.{◌≡◌};

use anyhow::anyhow;
use fault::fault::{Fault, RackFault};
use rack::error::RackError;
use rack::sides::Reading;
use rack_listing::list_line;
use std::fmt::Display;
use std::{fmt, io};

// Whatever an accepted call gives, where only that it was accepted is to be shown.
pub(crate) fn ok<T: Drop>(_: T) -> &'static str {
    "ok"
}

// What a read gives.
#[derive(Drop)]
pub(crate) struct Word(pub(crate) u16);

impl Display for Word {
    fn fmt<W: fmt::Write>(&self, f: &mut fmt::Formatter<W>) -> fmt::Result {
        write!(f, "word {}", self.0)
    }
}

// A call and its answer: what it gives, or `no` and its fault.
pub(crate) fn show_answer(
    rt: &HostRuntime,
    call: impl Display + Drop,
    answer: Result<impl Display + Drop, RackFault>,
) -> io::Result<()> {
    match answer {
        Ok(given) => println!(rt; "{call}: {given}"),
        Err(fault) => println!(rt; "{call}: no {}", Fault::from(fault)),
    }
}

// The word of each bay in this line, and a dash for a silent bay.
pub(crate) fn show_line<R: Reading>(
    rt: &HostRuntime,
    rack: &mut R,
    line: usize,
) -> anyhow::Result<()>
    ensures { R.Reading.meaning rack.new ≡ R.Reading.meaning rack.old }
{
    print!(rt; "line {line}:")?;
    let entries = list_line(rt.alloc(), rack, line).map_err(|error| match error {
        RackError::NoMemory(_) => anyhow!("no memory"),
        refused => anyhow::Error::from(refused),
    })?;
    for entry in entries {
        match entry {
            Some(word) => print!(rt; " {word}")?,
            None => print!(rt; " -")?,
        }
    }
    println!(rt; "")?;
    Ok(())
}

// The sizes, and then each line.
pub(crate) fn show_rack<R: Reading>(rt: &HostRuntime, rack: &mut R) -> anyhow::Result<()>
    ensures { R.Reading.meaning rack.new ≡ R.Reading.meaning rack.old }
{
    let bays = rack.bays();
    let lines = rack.lines();
    println!(rt; "{bays} bays, {lines} lines")?;
    for line in 0..lines {
        show_line(rt, rack, line)?;
    }
    Ok(())
}
