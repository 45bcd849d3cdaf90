// Whole runs of a bank.
ghost use Rattle.std.specs.Prelude.{◌≡◌, length, Some, None, OnOk, OnErr, IfOk, IfErr};
ghost use Rattle.field.specs.Structure.{size};
ghost use Rattle.rules.specs.Known.{front_of};
ghost use Rattle.rules.specs.Rules.{why_start};
ghost use Rattle.ledger.specs.Ledger.{opening};
ghost use Rattle.ledger.specs.Runs.{History};
ghost use Rattle.bank.specs.declared.drawers.Drawer.{Drawer as DrawerOf};
ghost use Rattle.bank.specs.declared.runs.NotStarted.TheVariants.{Memory, Refused};
ghost use Rattle.bank.specs.Drawers.{known_of, open_bay};
ghost use Rattle.bank.specs.Starting.{Reason, reason_text};

use crate::drawers::Drawer;
use crate::turns::turn;
use book::Book;
use call::Call;
use fault::fault::{BookFault, Fault};
use field::{BaseField, Field};
use ledger::Answer;
use rack::sides::{Reading, Serving};
use std::alloc::{AllocError, Global};
use std::error::Error;
use std::fmt;

// Why a run did not start: there is no memory for its answers, or the book's start was refused.
#[derive(Clone, Copy, PartialEq, Eq, Debug)]
pub enum NotStarted {
    Memory,
    Refused(BookFault),
}

// By hand, with `from_gives`: the contract of `run` names the error.
impl From<AllocError> for NotStarted {
    ghost from_gives = { λ _ r. r ≡ Memory };

    fn from(_value: AllocError) -> NotStarted {
        NotStarted::Memory
    }
}

impl From<BookFault> for NotStarted {
    ghost from_gives = { λ x r. r ≡ Refused x };

    fn from(fault: BookFault) -> NotStarted {
        NotStarted::Refused(fault)
    }
}

// As in `no memory`, `no b 1 17`.
impl fmt::Display for NotStarted {
    ghost output = { λ x. Some (reason_text x) };

    fn fmt<W: fmt::Write>(&self, f: &mut fmt::Formatter<W>) -> fmt::Result {
        match self {
            NotStarted::Memory => write!(f, "no memory"),
            NotStarted::Refused(fault) => write!(f, "no {}", Fault::from(*fault)),
        }
    }
}

impl Error for NotStarted {}

// Whoever looks at the drawer and the rack between the calls. A closure in its place would ask more of callers, by a `requires`
// that it may be called.
pub trait Watch<F: BaseField, R> {
    ghost sees: { Self → DrawerOf F → R → Self → Type 0 };

    fn look(&mut self, drawer: &Drawer<F>, rack: &R)
        ensures { sees self.old drawer.now rack.now self.new };
}

// Starts a book of so many items on the rack and makes the calls one by one, with a look at the drawer and the rack after the
// start and after each call. The bank's theorem is the history that it promises.
pub fn run<F: BaseField, R: Serving, W: Watch<F, R>>(
    heap: Global,
    rack: &mut R,
    items: usize,
    sheet: &mut [u16],
    calls: &[Call],
    watch: &mut W,
) -> Result<(Drawer<F>, Vec<Answer>), NotStarted>
    ensures started { OnOk result (why_start (size F.Field.structure) items (front_of (R.Reading.meaning rack.old)) ≡ None) }
    ensures history { IfOk result (λ p. History F.Field.structure known_of open_bay R.Reading.meaning W.Watch.sees (opening (size F.Field.structure) items (front_of (R.Reading.meaning rack.old))) (length sheet.old) calls.now p.1.items watch.old p.0 rack.new watch.new) }
    ensures refused { IfErr result (Reason (size F.Field.structure) items (front_of (R.Reading.meaning rack.old))) }
    ensures kept { OnErr result ((R.Reading.meaning rack.new ≡ R.Reading.meaning rack.old) × (watch.new ≡ watch.old) × (sheet.new ≡ sheet.old)) }
{
    let mut answers = Vec::with_capacity(heap, calls.len())?;
    let mut drawer = Drawer::Closed(Book::<F>::start(rack, items)?);
    watch.look(&drawer, rack);
    for call in calls {
        let answer;
        (drawer, answer) = turn(drawer, rack, sheet, *call);
        watch.look(&drawer, rack);
        answers.push_reserved(answer);
    }
    Ok((drawer, answers))
}
