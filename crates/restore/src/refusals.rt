// Which lists can be restored, and the refusals of the others in their order.
ghost use Rattle.std.specs.Prelude.{◌≡◌, length};
ghost use Rattle.codeword.specs.Sums.{count as tally};
ghost use Rattle.fault.specs.Refusing.{refusal_of};
ghost use Rattle.restore.specs.Restored.{refusal, absent, first_large};

use extension::Ext;
use fault::fault::BookFault;
use field::{BaseField, Field};

// The first present word that is not below the bound.
fn first_large(words: &[u16], marks: &[u8], bound: u32) -> Option<u16>
    requires { length marks.now ≡ length words.now }
    ensures { result ≡ first_large bound words.now marks.now }
{
    words
        .iter()
        .zip(marks)
        .find(|(word, mark)| **mark == 0 && u32::from(**word) >= bound)
        .map(|(word, _)| *word)
}

// How many bays are absent.
fn count_absent(marks: &[u8]) -> usize
    ensures { result ≡ tally (absent marks.now) (length marks.now) }
{
    marks.iter().filter(|mark| **mark != 0).count()
}

// Refuses what cannot be restored, whatever the present words are.
pub(crate) fn admit<F: BaseField>(words: &[u16], marks: &[u8]) -> Result<(), BookFault>
    ensures { refusal_of result ≡ refusal F.Field.structure words.now marks.now }
{
    let length = words.len();
    if length < 5 || length > F::order() as usize + 4 {
        return Err(BookFault::ItemCount(length));
    }
    if marks.len() != length {
        return Err(BookFault::ListLength(marks.len()));
    }
    if let Some(word) = first_large(words, marks, Ext::<F>::order()) {
        return Err(BookFault::WordTooLarge(usize::from(word)));
    }
    let count = count_absent(marks);
    if count > 4 {
        return Err(BookFault::TooManyAbsent(count));
    }
    Ok(())
}
