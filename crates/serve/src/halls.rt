// The racks of a hall.
ghost use Rattle.std.specs.Prelude.{◌≡◌, ◌+◌, ◌≤◌, None, IfOk, IfErr, OnOk};
ghost use Rattle.round.specs.Replies.{why_lines};
ghost use Rattle.serve.specs.Halls.{hall_meaning, new_hall, Unserved};

use crate::serving::NotServed;
use joined_rack::pair::JoinedRack;
use plain_rack::parts::PlainRack;
use round::tasks::BankSize;
use std::alloc::Global;

// The bays of the check words, and beside them a bay for each item.
pub type Hall = JoinedRack<PlainRack, PlainRack>;

// The racks of a hall of this size.
pub(crate) fn make_hall(heap: Global, size: BankSize) -> Result<Hall, NotServed>
    requires some_items { 1 ≤ size.items }
    requires few_items { size.items ≤ 256 }
    ensures accepted { OnOk result (why_lines (size.items + 4) size.lines ≡ None) }
    ensures new { IfOk result (λ hall. hall_meaning hall ≡ new_hall size.items size.lines) }
    ensures refused { IfErr result (Unserved (why_lines (size.items + 4) size.lines) (Unit {0})) }
{
    let items = size.items as usize;
    let lines = size.lines as usize;
    // The whole comes first: a refusal names the number of its words.
    PlainRack::check(items + 4, lines, (items + 4) * lines)?;
    let mut checks = PlainRack::zeros(heap, 4, lines)?;
    let mut counts = PlainRack::zeros(heap, items, lines)?;
    JoinedRack::check(&mut checks, &mut counts)?;
    Ok(JoinedRack::new(checks, counts))
}
