// The two sides of a plain rack.
ghost use Rattle.std.specs.Prelude.{◌≡◌};
ghost use Rattle.rack.specs.Meaning.{InRange};
ghost use Rattle.rack.specs.Calls.{switch_answer, exchange_after};
ghost use Rattle.plain_rack.specs.Plain.{blank, plain_meaning};

use crate::parts::PlainRack;
use fault::fault::RackFault;
use rack::sides::{Reading, Serving};

impl Reading for PlainRack {
    ghost meaning = { plain_meaning };

    fn bays(&mut self) -> usize {
        self.shape.bays
    }

    fn lines(&mut self) -> usize {
        self.shape.lines
    }

    fn read(&mut self, bay: usize, line: usize) -> Result<u16, RackFault> {
        let place = self.reach(bay, line)?;
        Ok(self.words[place])
    }
}

impl Serving for PlainRack {
    fn write(&mut self, bay: usize, line: usize, word: u16) -> Result<(), RackFault> {
        self.reach(bay, line)?;
        // Not the place that `reach` gives: with this one a loop over the lines of a bay writes them as one block.
        let place = self.shape.place(bay, line);
        self.words[place] = word;
        Ok(())
    }

    fn off(&mut self, bay: usize) -> Result<(), RackFault> {
        self.switch(bay, false)
    }

    fn on(&mut self, bay: usize) -> Result<(), RackFault> {
        self.switch(bay, true)
    }

    fn switch(&mut self, bay: usize, on: bool) -> Result<(), RackFault> {
        self.check_bay(bay)?;
        self.switches[bay] = on;
        Ok(())
    }

    // The bay then holds 65535 in each line.
    fn exchange(&mut self, bay: usize) -> Result<(), RackFault>
        ensures answer { result ≡ switch_answer (plain_meaning self.old) bay }
        ensures ranges { InRange (plain_meaning self.new) }
        ensures after { plain_meaning self.new ≡ exchange_after (plain_meaning self.old) bay ((plain_meaning self.new).word bay) }
        ensures blank { plain_meaning self.new ≡ exchange_after (plain_meaning self.old) bay blank }
    {
        self.check_bay(bay)?;
        self.renew(bay);
        Ok(())
    }
}
