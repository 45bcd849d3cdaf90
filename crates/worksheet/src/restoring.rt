// The restored line: the one that fits the N present bays with the highest numbers.
ghost use Rattle.std.specs.Prelude.{◌≡◌, ℕ, ◌<◌, ◌≤◌, not, length, None, OnOk, OnErr, is_some, unwrap_or, slice_index, slice_index_or};
ghost use Rattle.codeword.specs.Sums.{count};
ghost use Rattle.fault.specs.Refusing.{refusal_of};
ghost use Rattle.restore.specs.Restored.{absent};
ghost use Rattle.worksheet.specs.Lines.{marked, why_unrestored, OnSheet};

use crate::bays::BaySet;
use crate::looking::survey;
use fault::fault::BookFault;
use field::{BaseField, Field};
use rack::sides::{MOST_BAYS, Reading};
use restore::restore;

// How many of the bays have no word.
fn count_absent(found: &[Option<u16>]) -> usize
    ensures { result ≡ count (λ bay. not (is_some (slice_index_or found.now bay None))) (length found.now) }
{
    found.iter().filter(|word| word.is_none()).count()
}

// Lays the words out as `restore` takes them: a word for each bay, 0 where there is none, and a mark for each that has none.
fn lay_out(found: &[Option<u16>], words: &mut [u16], marks: &mut [u8])
    requires words { length found.now ≤ length words.old }
    requires marks { length found.now ≤ length marks.old }
    ensures long_words { length words.new ≡ length words.old }
    ensures long_marks { length marks.new ≡ length marks.old }
    ensures words { (bay : ℕ) → bay < length found.now → slice_index words.new bay ≡ unwrap_or (slice_index_or found.now bay None) 0 }
    ensures marks { (bay : ℕ) → bay < length found.now → absent marks.new bay ≡ not (is_some (slice_index_or found.now bay None)) }
{
    for (bay, word) in found.iter().enumerate() {
        words[bay] = word.unwrap_or(0);
        marks[bay] = u8::from(word.is_none());
    }
}

// Restores a line of a rack onto the first places of a worksheet, from the bays that answer and are not marked.
pub fn restore_line<F: BaseField, R: Reading>(
    rack: &mut R,
    behind: &BaySet,
    sheet: &mut [u16],
    line: usize,
) -> Result<(), BookFault>
    ensures refused { refusal_of result ≡ why_unrestored F.Field.structure (R.Reading.meaning rack.old) (marked behind.now) (length sheet.old) line }
    ensures restored { OnOk result (OnSheet F.Field.structure (R.Reading.meaning rack.old) (marked behind.now) line sheet.old sheet.new) }
    ensures kept { OnErr result (sheet.new ≡ sheet.old) }
    ensures after { R.Reading.meaning rack.new ≡ R.Reading.meaning rack.old }
{
    let bays = rack.bays();
    if bays < 5 || bays > F::order() as usize + 4 {
        return Err(BookFault::ItemCount(bays));
    }
    if sheet.len() < bays {
        return Err(BookFault::ListLength(sheet.len()));
    }
    if line >= rack.lines() {
        return Err(BookFault::NoLine(line));
    }
    let found = survey::<F, R>(rack, behind, line, bays - 4);
    let absent = count_absent(&found[..bays]);
    if absent > 4 {
        return Err(BookFault::TooManyAbsent(absent));
    }
    let mut marks = [0; MOST_BAYS];
    lay_out(&found[..bays], sheet, &mut marks);
    restore::<F>(&mut sheet[..bays], &marks[..bays])
}
