// What can be found out of a rack of any make by its reading side alone.
ghost use Rattle.std.specs.Prelude.{◌≡◌};
ghost use Rattle.rack.specs.Meaning.{InRange, answers};
ghost use Rattle.rack.specs.Calls.{answer, bay_refusal, entry_answer};

use crate::sides::Reading;
use fault::fault::RackFault;

// The word of a bay that answers, and none of a silent one.
pub fn entry<R: Reading>(rack: &mut R, bay: usize, line: usize) -> Result<Option<u16>, RackFault>
    ensures answer { result ≡ entry_answer (R.Reading.meaning rack.old) line bay }
    ensures ranges { InRange (R.Reading.meaning rack.old) }
    ensures after { R.Reading.meaning rack.new ≡ R.Reading.meaning rack.old }
{
    match rack.read(bay, line) {
        Ok(word) => Ok(Some(word)),
        Err(RackFault::Silent(_)) => Ok(None),
        Err(fault) => Err(fault),
    }
}

// Whether a bay answers. It is asked for its word in line 0, which every rack has.
pub fn bay_answers<R: Reading>(rack: &mut R, bay: usize) -> Result<bool, RackFault>
    ensures answer { result ≡ answer (bay_refusal (R.Reading.meaning rack.old) bay) (answers (R.Reading.meaning rack.old) bay) }
    ensures after { R.Reading.meaning rack.new ≡ R.Reading.meaning rack.old }
{
    entry(rack, bay, 0).map(|word| word.is_some())
}
