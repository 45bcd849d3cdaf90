// The two sides of a joined rack. Each call names its step at both parts, whose types differ: a function over the parts would
// need the step twice too, as two closures.
ghost use Rattle.joined_rack.specs.Beside.{joined_meaning};

use crate::find::naming;
use crate::pair::{JoinedRack, Part};
use fault::fault::RackFault;
use rack::sides::{Reading, Serving};

impl<F: Reading, S: Reading> Reading for JoinedRack<F, S> {
    ghost meaning = { joined_meaning F.Reading.meaning S.Reading.meaning };

    fn bays(&mut self) -> usize {
        self.first.bays() + self.second.bays()
    }

    // Both have as many lines. Each is asked, since the ranges of the whole follow from those of both.
    fn lines(&mut self) -> usize {
        self.first.lines().min(self.second.lines())
    }

    fn read(&mut self, bay: usize, line: usize) -> Result<u16, RackFault> {
        match self.cell_part(bay, line)? {
            Part::First(b) => self.first.read(b, line),
            Part::Second(b) => naming(self.second.read(b, line), bay),
        }
    }
}

impl<F: Serving, S: Serving> Serving for JoinedRack<F, S> {
    fn write(&mut self, bay: usize, line: usize, word: u16) -> Result<(), RackFault> {
        match self.cell_part(bay, line)? {
            Part::First(b) => self.first.write(b, line, word),
            Part::Second(b) => naming(self.second.write(b, line, word), bay),
        }
    }

    fn off(&mut self, bay: usize) -> Result<(), RackFault> {
        self.switch(bay, false)
    }

    fn on(&mut self, bay: usize) -> Result<(), RackFault> {
        self.switch(bay, true)
    }

    fn switch(&mut self, bay: usize, on: bool) -> Result<(), RackFault> {
        match self.part(bay)? {
            Part::First(b) => self.first.switch(b, on),
            Part::Second(b) => naming(self.second.switch(b, on), bay),
        }
    }

    fn exchange(&mut self, bay: usize) -> Result<(), RackFault> {
        match self.part(bay)? {
            Part::First(b) => self.first.exchange(b),
            Part::Second(b) => naming(self.second.exchange(b), bay),
        }
    }
}
