// The cells of a plain rack: where the words lie, which can be reached, and how a bay is renewed.
ghost use Rattle.std.specs.Prelude.{◌≡◌, ◌*◌, ◌<◌, IfOk, vec_len};
ghost use Rattle.rack.specs.Calls.{answer, cell_refusal, switch_answer, with_bay};
ghost use Rattle.plain_rack.specs.Plain.{place_of, blank, plain_meaning};

use crate::parts::{PlainRack, PlainShape};
use fault::fault::RackFault;

// What a bay holds in each line after an exchange.
const BLANK: u16 = 65535;

impl PlainShape {
    // Where the word of a bay and a line lies.
    pub(crate) fn place(self, bay: usize, line: usize) -> usize
        requires has_bay { bay < self.bays }
        requires has_line { line < self.lines }
        ensures value { result ≡ place_of self.lines bay line }
        ensures within { result < self.bays * self.lines }
    {
        bay * self.lines + line
    }
}

impl PlainRack {
    // The place of a word that can be read or written, or the refusal.
    pub(crate) fn reach(&self, bay: usize, line: usize) -> Result<usize, RackFault>
        ensures answer { result ≡ answer (cell_refusal (plain_meaning self.now) bay line) (place_of self.now.shape.lines bay line) }
        ensures within { IfOk result (λ at. at < vec_len self.now.words) }
    {
        self.check_bay(bay)?;
        if line >= self.shape.lines {
            return Err(RackFault::NoLine(line));
        }
        if !self.switches[bay] {
            return Err(RackFault::Silent(bay));
        }
        Ok(self.shape.place(bay, line))
    }

    // Whether the rack has the bay.
    pub(crate) fn check_bay(&self, bay: usize) -> Result<(), RackFault>
        ensures { result ≡ switch_answer (plain_meaning self.now) bay }
    {
        if bay >= self.shape.bays {
            return Err(RackFault::NoBay(bay));
        }
        Ok(())
    }

    // Sets a bay that the rack has on, with 65535 in each line.
    pub(crate) fn renew(&mut self, bay: usize)
        requires { bay < self.old.shape.bays }
        ensures { plain_meaning self.new ≡ with_bay (plain_meaning self.old) bay blank }
    {
        self.switches[bay] = true;
        let from = self.shape.place(bay, 0);
        self.words[from..from + self.shape.lines].fill(BLANK);
    }
}
