// Where a bay of a joined rack lies, and how its faults are named.
ghost use Rattle.std.specs.Prelude.{◌≡◌};
ghost use Rattle.rack.specs.Meaning.{InRange};
ghost use Rattle.joined_rack.specs.Beside.{bay_place, cell_place, naming_bay};

use crate::pair::{JoinedRack, Part};
use fault::fault::RackFault;
use rack::sides::Reading;

// The same answer, where a refusal that names a bay names this one. With `map_err`, four calls would each repeat a closure.
pub(crate) fn naming<T>(answer: Result<T, RackFault>, bay: usize) -> Result<T, RackFault>
    ensures { result ≡ naming_bay answer bay }
{
    match answer {
        Err(RackFault::NoBay(_)) => Err(RackFault::NoBay(bay)),
        Err(RackFault::Silent(_)) => Err(RackFault::Silent(bay)),
        other => other,
    }
}

impl<F: Reading, S: Reading> JoinedRack<F, S> {
    // Where a bay lies, or the refusal.
    pub(crate) fn part(&mut self, bay: usize) -> Result<Part, RackFault>
        ensures answer { result ≡ bay_place (F.Reading.meaning self.old.first) (S.Reading.meaning self.old.second) bay }
        ensures first_ranges { InRange (F.Reading.meaning self.old.first) }
        ensures second_ranges { InRange (S.Reading.meaning self.old.second) }
        ensures first { F.Reading.meaning self.new.first ≡ F.Reading.meaning self.old.first }
        ensures second { S.Reading.meaning self.new.second ≡ S.Reading.meaning self.old.second }
    {
        let split = self.first.bays();
        if bay >= split + self.second.bays() {
            return Err(RackFault::NoBay(bay));
        }
        if bay < split {
            Ok(Part::First(bay))
        } else {
            Ok(Part::Second(bay - split))
        }
    }

    // Where the bay of a bay and a line lies, or the refusal.
    pub(crate) fn cell_part(&mut self, bay: usize, line: usize) -> Result<Part, RackFault>
        ensures answer { result ≡ cell_place (F.Reading.meaning self.old.first) (S.Reading.meaning self.old.second) bay line }
        ensures first_ranges { InRange (F.Reading.meaning self.old.first) }
        ensures second_ranges { InRange (S.Reading.meaning self.old.second) }
        ensures first { F.Reading.meaning self.new.first ≡ F.Reading.meaning self.old.first }
        ensures second { S.Reading.meaning self.new.second ≡ S.Reading.meaning self.old.second }
    {
        let part = self.part(bay)?;
        if line >= self.first.lines() {
            return Err(RackFault::NoLine(line));
        }
        Ok(part)
    }
}
