// Starting a book on a rack.
ghost use Rattle.std.specs.Prelude.{◌≡◌, ℕ, ◌<◌, ◌≤◌, ◌&&◌, OnOk, OnErr, IfOk, ◌==◌, nat_lt};
ghost use Rattle.field.specs.Structure.{size};
ghost use Rattle.fault.specs.Refusing.{refusal_of};
ghost use Rattle.worksheet.specs.Lines.{marked};
ghost use Rattle.rules.specs.Known.{front_of};
ghost use Rattle.book.specs.Known.{knows};
ghost use Rattle.rules.specs.Rules.{why_start};
ghost use Rattle.rules.specs.Effects.{cleared, opened};
ghost use Rattle.book.specs.Sending.{wiped, silent_below};

use crate::book::Book;
use fault::fault::BookFault;
use field::{BaseField, Field};
use rack::sides::{MOST_BAYS, Reading, Serving};
use std::marker::PhantomData;
use worksheet::BaySet;

// The silent bays of a rack.
fn listen<R: Reading>(rack: &mut R, bays: usize) -> BaySet
    requires { bays ≡ (R.Reading.meaning rack.old).bays }
    ensures bays { (bay : ℕ) → marked result bay ≡ silent_below (R.Reading.meaning rack.old).switch bays bay }
    ensures after { R.Reading.meaning rack.new ≡ R.Reading.meaning rack.old }
{
    let mut silent = BaySet::from([false; MOST_BAYS]);
    for bay in 0..bays {
        if rack.read(bay, 0).is_err() {
            silent.insert(bay);
        }
    }
    silent
}

// Writes zero to each line of a bay, if it answers.
fn clear_bay<R: Serving>(rack: &mut R, bay: usize, lines: usize)
    requires bay { bay < (R.Reading.meaning rack.old).bays }
    requires lines { lines ≤ (R.Reading.meaning rack.old).lines }
    ensures { R.Reading.meaning rack.new ≡ wiped (R.Reading.meaning rack.old) (λ b l. (b == bay) && nat_lt l lines) }
{
    for line in 0..lines {
        // A write is refused where the bay is silent, which then keeps its words.
        let _ = rack.write(bay, line, 0);
    }
}

// Writes zero to each line of every bay that is not silent.
fn clear<R: Serving>(rack: &mut R, silent: &BaySet, bays: usize, lines: usize)
    requires bays { bays ≤ (R.Reading.meaning rack.old).bays }
    requires lines { lines ≤ (R.Reading.meaning rack.old).lines }
    requires silent { (bay : ℕ) → marked silent.now bay ≡ silent_below (R.Reading.meaning rack.old).switch bays bay }
    ensures { R.Reading.meaning rack.new ≡ wiped (R.Reading.meaning rack.old) (λ b l. nat_lt b bays && nat_lt l lines) }
{
    for bay in 0..bays {
        if !silent.contains(bay) {
            clear_bay(rack, bay, lines);
        }
    }
}

impl<F: BaseField> Book<F> {
    // A book of so many items for the rack: zero in each line of every bay that answers, and the silent bays behind.
    pub fn start<R: Serving>(rack: &mut R, items: usize) -> Result<Book<F>, BookFault>
        ensures refused { refusal_of result ≡ why_start (size F.Field.structure) items (front_of (R.Reading.meaning rack.old)) }
        ensures book { IfOk result (λ book. knows book ≡ opened items (R.Reading.meaning rack.old)) }
        ensures rack { OnOk result (R.Reading.meaning rack.new ≡ cleared (R.Reading.meaning rack.old)) }
        ensures rack_kept { OnErr result (R.Reading.meaning rack.new ≡ R.Reading.meaning rack.old) }
    {
        if items == 0 || items > F::order() as usize {
            return Err(BookFault::ItemCount(items));
        }
        let bays = rack.bays();
        if bays != items + 4 {
            return Err(BookFault::OtherRack(bays));
        }
        let lines = rack.lines();
        let silent = listen(rack, bays);
        let count = silent.count_below(bays);
        if count > 4 {
            return Err(BookFault::TooManySilent(count));
        }
        clear(rack, &silent, bays, lines);
        Ok(Book {
            items,
            lines,
            behind: silent,
            field: PhantomData,
        })
    }
}
