// A rack that is lent is a rack: what is done to it is done to the lender's.
use crate::sides::{Reading, Serving};
use fault::fault::RackFault;

impl<R: Reading> Reading for &mut R {
    ghost meaning = { λ x. R.Reading.meaning x.now };

    fn bays(&mut self) -> usize {
        (**self).bays()
    }

    fn lines(&mut self) -> usize {
        (**self).lines()
    }

    fn read(&mut self, bay: usize, line: usize) -> Result<u16, RackFault> {
        (**self).read(bay, line)
    }
}

impl<R: Serving> Serving for &mut R {
    fn write(&mut self, bay: usize, line: usize, word: u16) -> Result<(), RackFault> {
        (**self).write(bay, line, word)
    }

    fn off(&mut self, bay: usize) -> Result<(), RackFault> {
        (**self).off(bay)
    }

    fn on(&mut self, bay: usize) -> Result<(), RackFault> {
        (**self).on(bay)
    }

    fn switch(&mut self, bay: usize, on: bool) -> Result<(), RackFault> {
        (**self).switch(bay, on)
    }

    fn exchange(&mut self, bay: usize) -> Result<(), RackFault> {
        (**self).exchange(bay)
    }
}
