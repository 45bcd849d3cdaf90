// A round from its start on.
ghost use Rattle.std.specs.Prelude.{◌≡◌, ◌++◌, length, None, string_bytes, IfErr, OnOk};
ghost use Rattle.fault.specs.declared.fault.Fault.TheVariants.{Book as BookLayer, Rack as RackLayer};
ghost use Rattle.field.specs.Structure.{size as order_of};
ghost use Rattle.bank.specs.Drawers.{known_of, open_bay};
ghost use Rattle.frame.specs.Reading.{told};
ghost use Rattle.replies.specs.Lines.{said, done, line as line_of};
ghost use Rattle.round.specs.Replies.{room, first_ledger, why_hall, answer_reply};
ghost use Rattle.round.specs.Tasks.{phase_of};
ghost use Rattle.serve.specs.declared.serving.NotServed.TheVariants.{Memory, Refused};
ghost use Rattle.serve.specs.Halls.{hall_meaning, unmade, Unserved};
ghost use Rattle.serve.specs.Served.{Answered, Shown, Served, Serves};

use crate::halls::{Hall, make_hall};
use bank::{Drawer, Watch, turn};
use book::Book;
use fault::fault::{BookFault, Fault, RackFault};
use field::{BaseField, Field};
use frame::frame::Frame;
use ledger::Answer;
use rack::error::RackError;
use rack::sides::{MOST_BAYS, Reading, Serving};
use replies::{Reply, add_line};
use round::rounds::{Placed, Round};
use round::tasks::{BankSize, Phase, Task, not_now, task_of};
use std::alloc::{AllocError, Global};

// Why a round is not served to its end: there is no memory, or its start is refused.
#[derive(Clone, Copy, PartialEq, Eq, Debug)]
pub enum NotServed {
    Memory(AllocError),
    Refused(Fault),
}

// Each conversion is written out, since a derived `From` says nothing of its result.
impl From<AllocError> for NotServed {
    ghost from_gives = { λ x r. r ≡ Memory x };

    fn from(error: AllocError) -> NotServed {
        NotServed::Memory(error)
    }
}

impl From<BookFault> for NotServed {
    ghost from_gives = { λ x r. r ≡ Refused (BookLayer x) };

    fn from(fault: BookFault) -> NotServed {
        NotServed::Refused(Fault::from(fault))
    }
}

impl From<RackFault> for NotServed {
    ghost from_gives = { λ x r. r ≡ Refused (RackLayer x) };

    fn from(fault: RackFault) -> NotServed {
        NotServed::Refused(Fault::from(fault))
    }
}

// Why a rack was not made.
impl From<RackError> for NotServed {
    ghost from_gives = { λ x r. r ≡ unmade x };

    fn from(error: RackError) -> NotServed {
        match error {
            RackError::Refused(fault) => NotServed::from(fault),
            RackError::NoMemory(error) => NotServed::from(error),
        }
    }
}

// The phase of a bank with this drawer. (No `From` can stand here, nor at `reply_of`: the types are of other crates.)
fn phase<F: BaseField>(drawer: &Drawer<F>) -> Phase
    ensures { result ≡ phase_of (open_bay drawer.now) }
{
    match drawer {
        Drawer::Closed(_) => Phase::Closed,
        Drawer::Open(_) => Phase::Open,
    }
}

// The bank's answer as the reply to the frame at an offset.
fn reply_of<'a>(offset: usize, answer: Answer) -> Reply<'a>
    ensures { said result ≡ answer_reply offset answer }
{
    match answer {
        Answer::Done => Reply::Done,
        Answer::Word(word) => Reply::Word(word),
        Answer::Refused(fault) => Reply::Refused(fault),
        Answer::NotAllowed => not_now(offset),
    }
}

// Replies to one frame: makes its call, if it is one that may come now.
fn answer_frame<'a, F: BaseField, R: Serving>(
    drawer: Drawer<F>,
    rack: &mut R,
    sheet: &mut [u16],
    placed: Placed<'a>,
) -> (Drawer<F>, Reply<'a>)
    requires { length sheet.old ≡ room }
    ensures { let s = F.Field.structure in
        Answered s known_of open_bay R.Reading.meaning placed.entry.offset (told placed.entry.answer)
        drawer rack.old (said result.1) result.0 rack.new }
{
    match task_of(phase(&drawer), placed) {
        Task::Call(call) => {
            let (drawer, answer) = turn(drawer, rack, sheet, call);
            (drawer, reply_of(placed.offset, answer))
        }
        Task::Reply(reply) => (drawer, reply),
        Task::Start { .. } => (drawer, not_now(placed.offset)),
    }
}

// Shows the watcher what a call left.
fn show_call<F: BaseField, R: Serving, W: Watch<F, R>>(
    watch: &mut W,
    drawer: &Drawer<F>,
    rack: &R,
    placed: Placed<'_>,
)
    ensures { Shown W.Watch.sees (told placed.entry.answer) watch.old drawer.now rack.now watch.new }
{
    if let Ok(Frame::Call(_)) = placed.answer {
        watch.look(drawer, rack);
    }
}

// Serves the rest of a round.
fn serve_rest<F: BaseField, R: Serving, W: Watch<F, R>>(
    mut drawer: Drawer<F>,
    rack: &mut R,
    watch: &mut W,
    round: &mut Round<'_>,
    text: &mut String,
) -> Result<(), AllocError>
    ensures { let s = F.Field.structure in
        OnOk result
        (Serves s known_of open_bay R.Reading.meaning W.Watch.sees drawer rack.old watch.old round.old
        (string_bytes text.old) (string_bytes text.new) watch.new) }
{
    // The worksheet has room for the words of the longest line.
    let mut sheet = [0; MOST_BAYS];
    for placed in round {
        let (next, reply) = answer_frame(drawer, rack, &mut sheet, placed);
        drawer = next;
        show_call(watch, &drawer, rack, placed);
        add_line(text, placed.number, reply)?;
    }
    Ok(())
}

// Opens a bank with so many items and lines, and serves the rest of the round. The round and the text are no struct: the loop
// lends the one while the other grows.
pub fn serve<F: BaseField, W: Watch<F, Hall>>(
    heap: Global,
    number: usize,
    size: BankSize,
    round: &mut Round<'_>,
    text: &mut String,
    watch: &mut W,
) -> Result<(), NotServed>
    ensures accepted { OnOk result (why_hall (order_of F.Field.structure) size.items size.lines ≡ None) }
    ensures served { let s = F.Field.structure in
        let first = first_ledger (order_of s) size.items size.lines in
        OnOk result
        (Served s known_of open_bay hall_meaning W.Watch.sees first round.old
        (string_bytes text.old ++ line_of number done) (string_bytes text.new) watch.old watch.new) }
    ensures unserved { IfErr result
        (Unserved (why_hall (order_of F.Field.structure) size.items size.lines)
        ((round.new ≡ round.old) × (text.new ≡ text.old) × (watch.new ≡ watch.old))) }
{
    let items = size.items as usize;
    if items == 0 || items > F::order() as usize {
        return Err(NotServed::from(BookFault::ItemCount(items)));
    }
    let mut hall = make_hall(heap, size)?;
    let drawer = Drawer::Closed(Book::<F>::start(&mut hall, items)?);
    watch.look(&drawer, &hall);
    add_line(text, number, Reply::Done)?;
    serve_rest(drawer, &mut hall, watch, round, text)?;
    Ok(())
}
