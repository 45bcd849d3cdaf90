// The two sides of a rack. `meaning` is what a rack means; each call says what it answers, and what the rack means after it.
ghost use Rattle.std.specs.Prelude.{◌≡◌, true, false};
ghost use Rattle.rack.specs.Meaning.{Meaning, InRange};
ghost use Rattle.rack.specs.Calls.{read_answer, write_answer, write_after, switch_answer, switch_after, exchange_after};

use fault::fault::RackFault;

pub const MOST_BAYS: usize = 260;

pub const MOST_LINES: usize = 64;

// The reading side. A read over a wire sends, so each call takes the rack for writing, and promises that nothing changed.
// The ranges stand with each call and are no law: a caller through a trait object learns no laws.
pub trait Reading {
    ghost meaning: { Self → Meaning };

    // How many bays the rack has.
    fn bays(&mut self) -> usize
        ensures answer { result ≡ (meaning self.old).bays }
        ensures ranges { InRange (meaning self.old) }
        ensures after { meaning self.new ≡ meaning self.old };

    // How many lines each bay has.
    fn lines(&mut self) -> usize
        ensures answer { result ≡ (meaning self.old).lines }
        ensures ranges { InRange (meaning self.old) }
        ensures after { meaning self.new ≡ meaning self.old };

    // The word of a bay and a line.
    fn read(&mut self, bay: usize, line: usize) -> Result<u16, RackFault>
        ensures answer { result ≡ read_answer (meaning self.old) bay line }
        ensures ranges { InRange (meaning self.old) }
        ensures after { meaning self.new ≡ meaning self.old };
}

// The serving side, which builds on the reading side.
pub trait Serving: Reading {
    // Sets the word of a bay and a line.
    fn write(&mut self, bay: usize, line: usize, word: u16) -> Result<(), RackFault>
        ensures answer { result ≡ write_answer (Self.Reading.meaning self.old) bay line }
        ensures after { Self.Reading.meaning self.new ≡ write_after (Self.Reading.meaning self.old) bay line word };

    // Sets the bay's switch off. The bay keeps its words.
    fn off(&mut self, bay: usize) -> Result<(), RackFault>
        ensures answer { result ≡ switch_answer (Self.Reading.meaning self.old) bay }
        ensures after { Self.Reading.meaning self.new ≡ switch_after (Self.Reading.meaning self.old) bay false };

    // Sets the bay's switch on. The bay holds what it held.
    fn on(&mut self, bay: usize) -> Result<(), RackFault>
        ensures answer { result ≡ switch_answer (Self.Reading.meaning self.old) bay }
        ensures after { Self.Reading.meaning self.new ≡ switch_after (Self.Reading.meaning self.old) bay true };

    // Sets the bay's switch on or off. The bay keeps its words. A make that has one step for both writes it here, and its `off` and
    // `on` over it; they have no such bodies in this trait, since bodies provided over each other would be a ring.
    fn switch(&mut self, bay: usize, on: bool) -> Result<(), RackFault>
        ensures answer { result ≡ switch_answer (Self.Reading.meaning self.old) bay }
        ensures after { Self.Reading.meaning self.new ≡ switch_after (Self.Reading.meaning self.old) bay on }
    {
        if on { self.on(bay) } else { self.off(bay) }
    }

    // Puts another controller into the bay and switches it on. The words that it comes with are not fixed: they are
    // those that the rack means after the call, each of 16 bits.
    fn exchange(&mut self, bay: usize) -> Result<(), RackFault>
        ensures answer { result ≡ switch_answer (Self.Reading.meaning self.old) bay }
        ensures ranges { InRange (Self.Reading.meaning self.new) }
        ensures after { Self.Reading.meaning self.new ≡ exchange_after (Self.Reading.meaning self.old) bay ((Self.Reading.meaning self.new).word bay) };
}
