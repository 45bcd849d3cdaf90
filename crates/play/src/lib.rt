// Playing a round file from its first frame to its last.
#![tactic(auto)]

ghost use Rattle.std.specs.Prelude.{◌≡◌, IfOk, IfErr, None, string_bytes, OnOk};
ghost use Rattle.frame.specs.Reading.{told};
ghost use Rattle.replies.specs.Lines.{done};
ghost use Rattle.round.specs.Replies.{serving, first_ledger, why_open};
ghost use Rattle.serve.specs.Halls.{Unserved};
ghost use Rattle.play.specs.Played.{PlayedOn, Begun, Played};

use bank::{Drawer, Watch};
use extension::Gf16;
use fault::fault::{Fault, FileFault};
use field::{BaseField, Gf4};
use replies::{Reply, add_line};
use round::rounds::{Placed, Round};
use round::tasks::{BankSize, Phase, Task, not_now, task_of};
use serve::{Hall, NotServed, serve};
use std::alloc::{AllocError, Global};
use table_field::Table256;

// A watcher who sees nothing.
#[derive(Clone, Copy)]
struct Nobody;

impl<F: BaseField> Watch<F, Hall> for Nobody {
    ghost sees = { λ _ _ _ _. Unit {0} };

    fn look(&mut self, _drawer: &Drawer<F>, _rack: &Hall) {}
}

// Opens a bank over the field that a start names, and plays the rest of the round. Each field is a type of its own, so an enum
// between the number in the file and the type would only be matched again.
#[tactic(auto, unfolding(extension::specs::Extend::extend))]
fn open(
    heap: Global,
    placed: Placed<'_>,
    size: BankSize,
    field: u16,
    round: &mut Round<'_>,
    text: &mut String,
) -> Result<(), NotServed>
    ensures accepted { OnOk result (why_open placed.entry.offset size.items size.lines field ≡ None) }
    ensures played { let first = first_ledger field size.items size.lines in
        OnOk result
        (PlayedOn placed.entry.number done round.old (serving first) (string_bytes text.old) (string_bytes text.new)) }
    ensures unserved { IfErr result
        (Unserved (why_open placed.entry.offset size.items size.lines field)
        ((round.new ≡ round.old) × (text.new ≡ text.old))) }
{
    let number = placed.number;
    match field {
        4 => serve::<Gf4, Nobody>(heap, number, size, round, text, &mut Nobody),
        16 => serve::<Gf16, Nobody>(heap, number, size, round, text, &mut Nobody),
        256 => serve::<Table256, Nobody>(heap, number, size, round, text, &mut Nobody),
        _ => Err(NotServed::Refused(Fault::from(FileFault::NoField(placed.offset)))),
    }
}

// Plays a frame before an accepted start: the reply, or nothing where the rest of the round is played.
fn begin<'a>(
    heap: Global,
    placed: Placed<'a>,
    round: &mut Round<'_>,
    text: &mut String,
) -> Result<Option<Reply<'a>>, AllocError>
    ensures { IfOk result
        (λ x. Begun placed.entry.number placed.entry.offset (told placed.entry.answer) round.old (string_bytes text.old)
        x round.new (string_bytes text.new)) }
{
    match task_of(Phase::Waiting, placed) {
        Task::Reply(reply) => Ok(Some(reply)),
        Task::Call(_) => Ok(Some(not_now(placed.offset))),
        Task::Start { size, field } => match open(heap, placed, size, field, round, text) {
            Ok(()) => Ok(None),
            Err(NotServed::Refused(fault)) => Ok(Some(Reply::Refused(fault))),
            Err(NotServed::Memory(error)) => Err(error),
        },
    }
}

// The lines of the replies to a round file.
pub fn play(heap: Global, file: &[u8]) -> Result<String, AllocError>
    ensures { IfOk result (λ text. Played file.now (string_bytes text)) }
{
    let mut text = String::new(heap);
    let mut round = Round::new(file);
    // No `for`, which would keep the round lent: a start takes the rest of it.
    while let Some(placed) = round.next() {
        let Some(reply) = begin(heap, placed, &mut round, &mut text)? else {
            return Ok(text);
        };
        add_line(&mut text, placed.number, reply)?;
    }
    Ok(text)
}
