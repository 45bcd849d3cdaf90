// Encoding a line: its four check words into a passed list.
ghost use Rattle.std.specs.Prelude.{◌≡◌, length};
ghost use Rattle.line_code.specs.Answers.{encode_answer, encode_after};
ghost use Rattle.line_code.specs.Worked.{AllHold, worked};

use crate::admit::Line;
use crate::factors::prepare;
use crate::gathering::gathered_sums;
use crate::halving::sums_by_halves;
use crate::moments::Constants;
use crate::sums::plain_sums;
use fault::fault::BookFault;
use field::BaseField;

// Over the table field the definition was measured to be the faster way for lines with fewer items than this.
const FEW: usize = 4;

// Writes the four check words of a line to the first four places of the list, and nothing else. A line of few items
// is encoded by the definition, any other from its sums gathered in place.
pub fn encode<F: BaseField>(words: &[u16], checks: &mut [u16]) -> Result<(), BookFault>
    ensures answer { result ≡ encode_answer F.Field.structure words.now (length checks.old) }
    ensures after { checks.new ≡ encode_after F.Field.structure words.now checks.old }
{
    if words.len() < FEW {
        return encode_by_sums::<F>(words, checks);
    }
    let line = Line::<F>::admit(words, checks.len())?;
    let bits = line.bits();
    gathered_sums(&line, &Constants::of(&prepare::<F>(bits), bits)).write(checks);
    Ok(())
}

// The same by the definition, item by item. Each way is written out, since no bound can name a closure that takes a `Line<'_, F>` yet.
pub fn encode_by_sums<F: BaseField>(words: &[u16], checks: &mut [u16]) -> Result<(), BookFault>
    ensures answer { result ≡ encode_answer F.Field.structure words.now (length checks.old) }
    ensures after { checks.new ≡ encode_after F.Field.structure words.now checks.old }
{
    let line = Line::<F>::admit(words, checks.len())?;
    plain_sums(&line).write(checks);
    Ok(())
}

// The same by sums over halves of the line, the Reed-Muller way: the same words, whatever the line and the field.
pub fn encode_by_halves<F: BaseField>(words: &[u16], checks: &mut [u16]) -> Result<(), BookFault>
    ensures answer { result ≡ encode_answer F.Field.structure words.now (length checks.old) }
    ensures after { checks.new ≡ encode_after F.Field.structure words.now checks.old }
{
    let line = Line::<F>::admit(words, checks.len())?;
    sums_by_halves(&line).write(checks);
    Ok(())
}

// The worked lines: codewords, and t0 to t3.
pub fn worked_lines_stand()
    ensures { AllHold worked }
{}
