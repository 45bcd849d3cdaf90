// One call to a bank.
ghost use Rattle.std.specs.Prelude.{◌≡◌, length};
ghost use Rattle.bank.specs.Drawers.{Turned, UnlessDone};

use crate::drawers::Drawer;
use book::Refused;
use call::Call;
use field::{BaseField, Field};
use ledger::Answer;
use rack::sides::{Reading, Serving};

// Makes one call, whatever the drawer: the drawer after it, and the answer. Whatever ledger the book and the rack stood by, the
// answer is that ledger's, and they stand by it after the call. Drawer, rack and worksheet are no struct: callers look at the
// rack between the calls, and lend a worksheet of their own.
pub fn turn<F: BaseField, R: Serving>(
    drawer: Drawer<F>,
    rack: &mut R,
    sheet: &mut [u16],
    call: Call,
) -> (Drawer<F>, Answer)
    ensures turned { Turned F.Field.structure (length sheet.old) call drawer (R.Reading.meaning rack.old) result.1 result.0 (R.Reading.meaning rack.new) }
    ensures kept { UnlessDone result.1 ((result.0 ≡ drawer) × (R.Reading.meaning rack.new ≡ R.Reading.meaning rack.old) × (sheet.new ≡ sheet.old)) }
    ensures long { length sheet.new ≡ length sheet.old }
{
    match (drawer, call) {
        (drawer, Call::Off { bay }) => (drawer, Answer::from(rack.off(bay as usize))),
        (drawer, Call::On { bay }) => (drawer, Answer::from(rack.on(bay as usize))),
        (Drawer::Closed(book), Call::Get { item, line }) => {
            let answer = Answer::from(book.get(rack, sheet, item as usize, line as usize));
            (Drawer::Closed(book), answer)
        }
        (Drawer::Closed(mut book), Call::Post { item, line, word }) => {
            let answer = Answer::from(book.post(rack, sheet, item as usize, line as usize, word));
            (Drawer::Closed(book), answer)
        }
        (Drawer::Closed(mut book), Call::Mend { bay }) => {
            let answer = Answer::from(book.mend(rack, sheet, bay as usize));
            (Drawer::Closed(book), answer)
        }
        (Drawer::Closed(book), Call::Release { bay }) => match book.release(bay as usize) {
            Ok(book) => (Drawer::Open(book), Answer::Done),
            Err(Refused { book, fault }) => (Drawer::Closed(book), Answer::Refused(fault.into())),
        },
        (Drawer::Open(book), Call::Seat) => match book.seat(rack) {
            Ok(book) => (Drawer::Closed(book), Answer::Done),
            Err(Refused { book, fault }) => (Drawer::Open(book), Answer::Refused(fault.into())),
        },
        (drawer, _) => (drawer, Answer::NotAllowed),
    }
}
