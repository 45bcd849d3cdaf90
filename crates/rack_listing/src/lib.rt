// A listing of a line, over the reading side of a rack of any make.
#![tactic(auto)]

ghost use Rattle.std.specs.Prelude.{◌≡◌};
ghost use Rattle.rack_listing.specs.Listing.{Listed};

use rack::ask::entry;
use rack::error::RackError;
use rack::sides::Reading;
use std::alloc::Global;

// The entry of each bay in this line. A loop, since no clause says how a chain of iterators leaves the rack that its closure borrows.
pub fn list_line<R: Reading>(
    heap: Global,
    rack: &mut R,
    line: usize,
) -> Result<Vec<Option<u16>>, RackError>
    ensures answer { Listed (R.Reading.meaning rack.old) line result }
    ensures after { R.Reading.meaning rack.new ≡ R.Reading.meaning rack.old }
{
    let bays = rack.bays();
    let mut entries = Vec::new(heap);
    for bay in 0..bays {
        entries.push(entry(rack, bay, line)?)?;
    }
    Ok(entries)
}
