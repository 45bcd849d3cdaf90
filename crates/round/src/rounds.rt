// A round: what is still to be read of a round file.
ghost use Rattle.std.specs.Prelude.{◌≡◌, ℕ, ◌^◌, ◌<◌, ◌≤◌, length, slice_index};

use fault::fault::FileFault;
use frame::frame::Frame;
use frame::reader::Reader;

// A reader, and the number of its next frame.
#[derive(Drop)]
pub struct Round<'a> {
    reader: Reader<'a>,
    number: usize,
    ghost counted: { number ≤ reader.offset },
    // What the type of the file says of it: the reader hides the file from this crate, and with it its type.
    ghost fits: { length reader.file.now < 2 ^ 64 },
    ghost bytes: { (i : ℕ) → slice_index reader.file.now i < 256 },
}

// A frame with its number in the file and the byte offset at which it begins.
#[derive(Clone, Copy)]
pub struct Placed<'a> {
    pub number: usize,
    pub offset: usize,
    pub answer: Result<Frame<'a>, FileFault>,
}

impl<'a> Round<'a> {
    ghost use Rattle.round.specs.Rounds.{file_in, here};

    pub fn new(file: &'a [u8]) -> Round<'a>
        ensures file { file_in result ≡ file.now }
        ensures start { here result ≡ 0 }
        ensures number { result.number ≡ 0 }
    {
        Round {
            reader: Reader::new(file),
            number: 0,
        }
    }
}

// The frames that are left, one after the other. (`enumerate` over the reader would hide the offset, which a refusal names.)
impl<'a> Iterator for Round<'a> {
    ghost use Rattle.std.specs.Iterator.{at_most};
    ghost use Rattle.frame.specs.Reading.{bytes_left};
    ghost use Rattle.round.specs.Rounds.{Reads};

    type Item = Placed<'a>;

    ghost next_gives = { Reads };

    ghost remaining = { λ r. at_most (length (bytes_left r.reader)) };

    fn next(&mut self) -> Option<Placed<'a>> {
        let number = self.number;
        let offset = self.reader.offset();
        let answer = self.reader.next()?;
        self.number = number + 1;
        Some(Placed {
            number,
            offset,
            answer,
        })
    }
}
