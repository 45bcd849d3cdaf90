// The check of a plain rack's sizes, and its making after an accepted check.
ghost use Rattle.std.specs.Prelude.{◌≡◌, ◌*◌, IfOk, vec_len};
ghost use Rattle.plain_rack.specs.Plain.{plain_meaning};
ghost use Rattle.plain_rack.specs.Shape.{sizes, shape_answer, fresh};
ghost use Rattle.plain_rack.specs.Zeros.{Zeros};

use crate::parts::{PlainRack, PlainShape};
use fault::fault::RackFault;
use rack::error::RackError;
use rack::sides::{MOST_BAYS, MOST_LINES};
use std::alloc::Global;

impl PlainRack {
    // Whether a rack of these sizes can be made over so many words.
    pub fn check(bays: usize, lines: usize, words: usize) -> Result<PlainShape, RackFault>
        ensures answer { sizes result ≡ shape_answer bays lines words }
        ensures full { IfOk result (λ shape. words ≡ shape.bays * shape.lines) }
    {
        let in_range = (1..=MOST_BAYS).contains(&bays) && (1..=MOST_LINES).contains(&lines);
        if !in_range || words != bays * lines {
            return Err(RackFault::BadShape(words));
        }
        Ok(PlainShape { bays, lines })
    }

    // A rack over as many words as were checked, with all its switches on.
    pub fn new(shape: PlainShape, words: Vec<u16>) -> PlainRack
        requires { vec_len words ≡ shape.bays * shape.lines }
        ensures { plain_meaning result ≡ fresh shape.bays shape.lines words.items }
    {
        PlainRack {
            shape,
            switches: [true; MOST_BAYS],
            words,
        }
    }

    // A rack of these sizes with all its switches on and all its words 0. No memory is asked for where a rack cannot have them.
    pub fn zeros(heap: Global, bays: usize, lines: usize) -> Result<PlainRack, RackError>
        ensures { Zeros bays lines result }
    {
        let words = bays.saturating_mul(lines);
        let shape = PlainRack::check(bays, lines, words)?;
        Ok(PlainRack::new(shape, vec![in heap; 0; words]?))
    }
}
