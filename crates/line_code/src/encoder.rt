// An encoder, which keeps the constants of its field.
ghost use Rattle.std.specs.Prelude.{◌≡◌, length};
ghost use Rattle.line_code.specs.Answers.{encode_answer, encode_after};
ghost use Rattle.line_code.specs.Prepared.{Prepared};

use crate::admit::Line;
use crate::bits::exponent;
use crate::factors::{Factors, prepare};
use crate::gathering::gathered_sums;
use crate::moments::Constants;
use fault::fault::BookFault;
use field::{BaseField, Field};
use std::marker::PhantomData;

// Encodes lines over a base field with constants that are computed once, for every line of the field.
// The constants are in an array, of which a small field uses the first places, since no memory of the heap may be asked for.
#[derive(Drop)]
pub struct Encoder<F: BaseField> {
    factors: [Factors; 8],
    field: PhantomData<F>,
    ghost prepared: { Prepared F.Field.structure F.Field.structure.bits factors },
}

impl<F: BaseField> Encoder<F> {
    pub fn new() -> Encoder<F> {
        Encoder {
            factors: prepare::<F>(exponent(F::order() as usize)),
            field: PhantomData,
        }
    }

    // Writes the four check words of a line to the first four places of the list, and nothing else.
    pub fn encode(&self, words: &[u16], checks: &mut [u16]) -> Result<(), BookFault>
        ensures answer { result ≡ encode_answer F.Field.structure words.now (length checks.old) }
        ensures after { checks.new ≡ encode_after F.Field.structure words.now checks.old }
    {
        let line = Line::<F>::admit(words, checks.len())?;
        gathered_sums(&line, &Constants::of(&self.factors, line.bits())).write(checks);
        Ok(())
    }
}
