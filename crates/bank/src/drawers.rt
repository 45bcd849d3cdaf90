// The drawer of a bank.
ghost use Rattle.std.specs.Prelude.{◌≡◌, ◌≤◌, false};
ghost use Rattle.field.specs.Structure.{size};
ghost use Rattle.bank.specs.Drawers.{known_of};

use book::{Book, OpenBook};
use field::{BaseField, Field};

// The book with its drawer closed, or with one open between a release and a seat.
#[derive(Drop)]
pub enum Drawer<F: BaseField> {
    Closed(Book<F>),
    Open(OpenBook<F>),
}

// The two books are two types, so each has its arm.
impl<F: BaseField> Drawer<F> {
    // How many items the book has, N.
    pub fn items(&self) -> usize
        ensures value { result ≡ (known_of self.now).items }
        ensures some { 1 ≤ result }
        ensures few { result ≤ size F.Field.structure }
    {
        match self {
            Drawer::Closed(book) => book.items(),
            Drawer::Open(book) => book.items(),
        }
    }

    // Whether the book marks the bay as behind.
    pub fn is_behind(&self, bay: usize) -> bool
        ensures value { result ≡ (known_of self.now).behind bay }
        ensures beyond { 260 ≤ bay → result ≡ false }
        ensures some { 1 ≤ (known_of self.now).items }
        ensures few { (known_of self.now).items ≤ size F.Field.structure }
    {
        match self {
            Drawer::Closed(book) => book.is_behind(bay),
            Drawer::Open(book) => book.is_behind(bay),
        }
    }
}
