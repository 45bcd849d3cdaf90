// The book with an open drawer, between the release of a bay and its seating.
ghost use Rattle.std.specs.Prelude.{◌≡◌, ◌≤◌, true, false, Some, None, OnOk, OnErr, IfOk, IfErr};
ghost use Rattle.field.specs.Structure.{size};
ghost use Rattle.rack.specs.Calls.{exchange_after};
ghost use Rattle.rules.specs.Known.{front_of, put, with_behind};
ghost use Rattle.book.specs.Known.{knows};
ghost use Rattle.rules.specs.Rules.{why_release, why_seat, others_behind};

use crate::book::Book;
use fault::fault::BookFault;
use field::{BaseField, Field};
use rack::sides::{Reading, Serving};

// It offers `seat` alone, which gives the book back.
#[derive(Drop)]
pub struct OpenBook<F: BaseField> {
    pub(crate) book: Book<F>,
    // The bay whose drawer is open.
    pub(crate) bay: usize,
}

// A call that took a book and was refused: the book as it was, and why.
#[derive(Drop)]
pub struct Refused<B> {
    pub book: B,
    pub fault: BookFault,
}

impl<F: BaseField> Book<F> {
    // How many bays other than this one are behind.
    fn others_behind(&self, bay: usize) -> usize
        ensures { result ≡ others_behind (knows self.now) bay }
    {
        let bays = self.items + 4;
        let all = self.behind.count_below(bays);
        if bay < bays && self.behind.contains(bay) {
            all - 1
        } else {
            all
        }
    }

    // Marks a bay behind and opens its drawer. A refused call hands the book back.
    pub fn release(mut self, bay: usize) -> Result<OpenBook<F>, Refused<Book<F>>>
        ensures accepted { OnOk result (why_release (knows self) bay ≡ None) }
        ensures bay { IfOk result (λ drawer. drawer.bay ≡ bay) }
        ensures book { IfOk result (λ drawer. knows drawer.book ≡ with_behind (knows self) (put (knows self).behind bay true)) }
        ensures refused { IfErr result (λ e. why_release (knows self) bay ≡ Some e.fault) }
        ensures book_kept { IfErr result (λ e. e.book ≡ self) }
    {
        if bay >= self.items + 4 {
            return Err(Refused {
                book: self,
                fault: BookFault::NoBay(bay),
            });
        }
        if self.others_behind(bay) >= 4 {
            return Err(Refused {
                book: self,
                fault: BookFault::FourBehind(bay),
            });
        }
        self.behind.insert(bay);
        Ok(OpenBook { book: self, bay })
    }
}

impl<F: BaseField> OpenBook<F> {
    // How many items the book has, N.
    pub fn items(&self) -> usize
        ensures value { result ≡ (knows self.now.book).items }
        ensures some { 1 ≤ result }
        ensures few { result ≤ size F.Field.structure }
    {
        self.book.items()
    }

    // Whether a bay is behind.
    pub fn is_behind(&self, bay: usize) -> bool
        ensures value { result ≡ (knows self.now.book).behind bay }
        ensures beyond { 260 ≤ bay → result ≡ false }
        ensures some { 1 ≤ (knows self.now.book).items }
        ensures few { (knows self.now.book).items ≤ size F.Field.structure }
    {
        self.book.is_behind(bay)
    }

    // Puts another controller into the open drawer's bay and closes the drawer. The bay stays behind. A refused call hands
    // the book back with its drawer open.
    pub fn seat<R: Serving>(self, rack: &mut R) -> Result<Book<F>, Refused<OpenBook<F>>>
        ensures accepted { OnOk result (why_seat (knows self.book) (front_of (R.Reading.meaning rack.old)) ≡ None) }
        ensures book { IfOk result (λ book. book ≡ self.book) }
        ensures rack { OnOk result (R.Reading.meaning rack.new ≡ exchange_after (R.Reading.meaning rack.old) self.bay ((R.Reading.meaning rack.new).word self.bay)) }
        ensures refused { IfErr result (λ e. why_seat (knows self.book) (front_of (R.Reading.meaning rack.old)) ≡ Some e.fault) }
        ensures book_kept { IfErr result (λ e. e.book ≡ self) }
        ensures rack_kept { OnErr result (R.Reading.meaning rack.new ≡ R.Reading.meaning rack.old) }
    {
        if let Err(fault) = self.book.admit_rack(rack) {
            return Err(Refused { book: self, fault });
        }
        let OpenBook { book, bay } = self;
        // A rack that is the book's has the bay, so that the exchange is not refused.
        let _ = rack.exchange(bay);
        Ok(book)
    }
}
