// What a frame asks of the runner, by the phase that the round is in.
ghost use Rattle.std.specs.Prelude.{◌≡◌, Ok};
ghost use Rattle.frame.specs.Format.{content};
ghost use Rattle.frame.specs.Reading.{told};
ghost use Rattle.replies.specs.Lines.{said};
ghost use Rattle.round.specs.Replies.{not_now};
ghost use Rattle.round.specs.Tasks.{asked, task};

use crate::rounds::Placed;
use call::Call;
use fault::fault::{Fault, FileFault};
use frame::frame::Frame;
use replies::Reply;

#[derive(Clone, Copy)]
pub enum Phase {
    // No start was accepted yet.
    Waiting,
    // There is a bank, and its drawer is closed, or open.
    Closed,
    Open,
}

// How many items and lines a bank is to have.
#[derive(Clone, Copy)]
pub struct BankSize {
    pub items: u16,
    pub lines: u16,
}

// What is to be done about a frame.
#[derive(Clone, Copy)]
pub enum Task<'a> {
    // A bank is to be opened, over the field with so many elements.
    Start { size: BankSize, field: u16 },
    // A call is to be made to the bank.
    Call(Call),
    // Nothing but to reply.
    Reply(Reply<'a>),
}

// The reply to a call that is not allowed now.
pub fn not_now<'a>(offset: usize) -> Reply<'a>
    ensures { said result ≡ not_now offset }
{
    Reply::Refused(Fault::from(FileFault::NotNow(offset)))
}

// Whether a frame may come in a phase.
fn task_of_frame<'a>(phase: Phase, offset: usize, frame: Frame<'a>) -> Task<'a>
    ensures { asked result ≡ task phase offset (Ok (content frame.entry)) }
{
    match (phase, frame) {
        (_, Frame::Note(text)) => Task::Reply(Reply::Note(text)),
        (_, Frame::Unknown { kind: _, body }) => Task::Reply(Reply::Skip(body.len())),
        (
            Phase::Waiting,
            Frame::Start {
                items,
                lines,
                field,
            },
        ) => Task::Start {
            size: BankSize { items, lines },
            field,
        },
        (
            Phase::Closed,
            Frame::Call(
                call @ (Call::Get { .. }
                | Call::Post { .. }
                | Call::Mend { .. }
                | Call::Release { .. }),
            ),
        ) => Task::Call(call),
        (Phase::Open, Frame::Call(Call::Seat)) => Task::Call(Call::Seat),
        (Phase::Closed | Phase::Open, Frame::Call(call @ (Call::Off { .. } | Call::On { .. }))) => {
            Task::Call(call)
        }
        _ => Task::Reply(not_now(offset)),
    }
}

pub fn task_of<'a>(phase: Phase, placed: Placed<'a>) -> Task<'a>
    ensures { asked result ≡ task phase placed.entry.offset (told placed.entry.answer) }
{
    match placed.answer {
        Ok(frame) => task_of_frame(phase, placed.offset, frame),
        Err(fault) => Task::Reply(Reply::Refused(Fault::from(fault))),
    }
}
