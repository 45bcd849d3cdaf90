// The check of two racks that are to be joined, and their joining after an accepted check.
ghost use Rattle.std.specs.Prelude.{◌≡◌};
ghost use Rattle.joined_rack.specs.Beside.{beside, joined_meaning};
ghost use Rattle.joined_rack.specs.Join.{Joinable, join_answer};

use crate::pair::JoinedRack;
use fault::fault::RackFault;
use rack::sides::{MOST_BAYS, Reading};

impl<F: Reading, S: Reading> JoinedRack<F, S> {
    // Whether the two can be joined.
    pub fn check(first: &mut F, second: &mut S) -> Result<(), RackFault>
        ensures answer { result ≡ join_answer (F.Reading.meaning first.old) (S.Reading.meaning second.old) }
        ensures first { F.Reading.meaning first.new ≡ F.Reading.meaning first.old }
        ensures second { S.Reading.meaning second.new ≡ S.Reading.meaning second.old }
    {
        let bays = first.bays() + second.bays();
        if first.lines() != second.lines() || bays > MOST_BAYS {
            return Err(RackFault::NoJoin(bays));
        }
        Ok(())
    }

    // The two racks side by side, which a check has accepted.
    pub fn new(first: F, second: S) -> JoinedRack<F, S>
        requires { Joinable (F.Reading.meaning first) (S.Reading.meaning second) }
        ensures { joined_meaning F.Reading.meaning S.Reading.meaning result ≡ beside (F.Reading.meaning first) (S.Reading.meaning second) }
    {
        JoinedRack { first, second }
    }
}
