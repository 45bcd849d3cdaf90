// The faults of each layer, a case for each row of the refusal table, and one fault over them all.
// What a case holds is the fault's place: the number that shows where the call went wrong.
ghost use Rattle.std.specs.Prelude.{◌≡◌, Some};
ghost use Rattle.fault.specs.declared.fault.Fault.TheVariants.{File, Book, Rack};
ghost use Rattle.fault.specs.Table.{row, printed};

use crate::layer::Layer;
use std::error::Error;
use std::fmt;

// Refusals of the round file; the place is the byte offset of the frame.
#[derive(Clone, Copy, PartialEq, Eq, Debug)]
pub enum FileFault {
    // The frame's head or body is cut short.
    CutShort(usize),
    // The body's length is wrong for the frame's kind.
    BodyLength(usize),
    // The call is not allowed now.
    NotNow(usize),
    // No base field has that number of elements.
    NoField(usize),
}

// Refusals of the book, the line code and the field.
#[derive(Clone, Copy, PartialEq, Eq, Debug)]
pub enum BookFault {
    // The number of items is 0 or above the size of the base field; the place is that number, in `restore` the length.
    ItemCount(usize),
    // The rack does not belong to the book; the place is the rack's number of bays.
    OtherRack(usize),
    // A worksheet or a list has the wrong length; the place is that length.
    ListLength(usize),
    // More than four bays are silent; the place is how many.
    TooManySilent(usize),
    NoItem(usize),
    NoLine(usize),
    // A word is not below the square of the field's size; the place is the first such word.
    WordTooLarge(usize),
    NoBay(usize),
    // Four other bays are behind; the place is the bay.
    FourBehind(usize),
    // The bay is not behind; the place is the bay.
    NotBehind(usize),
    // More than four bays are absent, or the item's own bay with them; the place is how many.
    TooManyAbsent(usize),
    // No element of the field has that number; the place is the number.
    NoElement(usize),
    // The words that are present agree with no codeword; the place is 0.
    NoCodeword,
}

// Refusals of a rack.
#[derive(Clone, Copy, PartialEq, Eq, Debug)]
pub enum RackFault {
    NoBay(usize),
    NoLine(usize),
    // The bay does not answer; the place is the bay.
    Silent(usize),
    // A plain rack cannot have these sizes; the place is the number of words passed.
    BadShape(usize),
    // Two racks cannot be joined; the place is the sum of their bays.
    NoJoin(usize),
}

#[derive(Clone, Copy, PartialEq, Eq, Debug)]
pub enum Fault {
    File(FileFault),
    Book(BookFault),
    Rack(RackFault),
}

// A row of the refusal table.
#[derive(Clone, Copy)]
struct Row {
    layer: Layer,
    number: u8,
    place: usize,
}

impl FileFault {
    fn row(self) -> Row
        ensures { result ≡ row (File self) }
    {
        let row = |number, place| Row {
            layer: Layer::File,
            number,
            place,
        };
        match self {
            FileFault::CutShort(offset) => row(31, offset),
            FileFault::BodyLength(offset) => row(32, offset),
            FileFault::NotNow(offset) => row(33, offset),
            FileFault::NoField(offset) => row(34, offset),
        }
    }
}

impl BookFault {
    fn row(self) -> Row
        ensures { result ≡ row (Book self) }
    {
        let row = |number, place| Row {
            layer: Layer::Book,
            number,
            place,
        };
        match self {
            BookFault::ItemCount(count) => row(1, count),
            BookFault::OtherRack(bays) => row(2, bays),
            BookFault::ListLength(length) => row(3, length),
            BookFault::TooManySilent(count) => row(4, count),
            BookFault::NoItem(item) => row(5, item),
            BookFault::NoLine(line) => row(6, line),
            BookFault::WordTooLarge(word) => row(7, word),
            BookFault::NoBay(bay) => row(8, bay),
            BookFault::FourBehind(bay) => row(9, bay),
            BookFault::NotBehind(bay) => row(10, bay),
            BookFault::TooManyAbsent(count) => row(11, count),
            BookFault::NoElement(number) => row(12, number),
            BookFault::NoCodeword => row(13, 0),
        }
    }
}

impl RackFault {
    fn row(self) -> Row
        ensures { result ≡ row (Rack self) }
    {
        let row = |number, place| Row {
            layer: Layer::Rack,
            number,
            place,
        };
        match self {
            RackFault::NoBay(bay) => row(21, bay),
            RackFault::NoLine(line) => row(22, line),
            RackFault::Silent(bay) => row(23, bay),
            RackFault::BadShape(words) => row(24, words),
            RackFault::NoJoin(bays) => row(25, bays),
        }
    }
}

impl Fault {
    fn row(self) -> Row
        ensures { result ≡ row self }
    {
        match self {
            Fault::File(fault) => fault.row(),
            Fault::Book(fault) => fault.row(),
            Fault::Rack(fault) => fault.row(),
        }
    }

    pub fn layer(self) -> Layer
        ensures { result ≡ (row self).layer }
    {
        self.row().layer
    }

    pub fn number(self) -> u8
        ensures { result ≡ (row self).number }
    {
        self.row().number
    }

    pub fn place(self) -> usize
        ensures { result ≡ (row self).place }
    {
        self.row().place
    }
}

// A layer's own fault becomes a fault by `?`, with its layer, number and place.
// Each conversion is written out, since a derived `From` says nothing of its result, and a caller's contract needs it.
impl From<FileFault> for Fault {
    ghost from_gives = { λ x r. r ≡ File x };

    fn from(fault: FileFault) -> Fault {
        Fault::File(fault)
    }
}

impl From<BookFault> for Fault {
    ghost from_gives = { λ x r. r ≡ Book x };

    fn from(fault: BookFault) -> Fault {
        Fault::Book(fault)
    }
}

impl From<RackFault> for Fault {
    ghost from_gives = { λ x r. r ≡ Rack x };

    fn from(fault: RackFault) -> Fault {
        Fault::Rack(fault)
    }
}

// As in `f 31 8`: the layer's letter, the number and the place.
impl fmt::Display for Fault {
    ghost output = { λ x. Some (printed (row x)) };

    fn fmt<W: fmt::Write>(&self, f: &mut fmt::Formatter<W>) -> fmt::Result {
        let Row {
            layer,
            number,
            place,
        } = self.row();
        write!(f, "{layer} {number} {place}")
    }
}

impl Error for Fault {}
