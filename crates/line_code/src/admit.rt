// Which lines are encoded, and the refusals of the others in their order.
ghost use Rattle.std.specs.Prelude.{◌≡◌, ◌^◌, ◌<◌, ◌≤◌, length, take, drop, slice_index, IfOk};
ghost use Rattle.std.specs.Result.{result_and};
ghost use Rattle.field.specs.Structure.{size};
ghost use Rattle.codeword.specs.Codeword.{element};
ghost use Rattle.line_code.specs.Answers.{words_answer, encode_answer};
ghost use Rattle.line_code.specs.Sums.{Small};

use crate::bits::exponent;
use crate::sums::element;
use extension::Ext;
use fault::fault::BookFault;
use field::{BaseField, Field};
use std::marker::PhantomData;

// The words of a line or of a part of one: at most as many as the field has elements, each the number of an element of
// the field's extension.
#[derive(Drop)]
pub(crate) struct Line<'a, F: BaseField> {
    pub words: &'a [u16],
    field: PhantomData<F>,
    ghost few: { length words.now ≤ size F.Field.structure },
    ghost small: { Small F.Field.structure words.now },
}

// The first word that is no element's number refuses the line.
fn admit_words<F: BaseField>(words: &[u16]) -> Result<(), BookFault>
    ensures { result ≡ words_answer F.Field.structure words.now }
{
    let bound = Ext::<F>::order();
    match words.iter().find(|word| **word as u32 >= bound) {
        Some(word) => Err(BookFault::WordTooLarge(*word as usize)),
        None => Ok(()),
    }
}

impl<'a, F: BaseField> Line<'a, F> {
    // A list of words as a line that is to be encoded into a list of so many places.
    pub(crate) fn admit(words: &'a [u16], places: usize) -> Result<Line<'a, F>, BookFault>
        ensures answer { result_and result (Ok tt) ≡ encode_answer F.Field.structure words.now places }
        ensures line { IfOk result (λ line. line.words.now ≡ words.now) }
    {
        if words.len() == 0 || words.len() > F::order() as usize {
            return Err(BookFault::ItemCount(words.len()));
        }
        if places < 4 {
            return Err(BookFault::ListLength(places));
        }
        admit_words::<F>(words)?;
        Ok(Line {
            words,
            field: PhantomData,
        })
    }

    // How many bits its item numbers have at most.
    pub(crate) fn bits(&self) -> usize
        ensures within { result ≤ F.Field.structure.bits }
        ensures fits { length self.now.words.now ≤ 2 ^ result }
    {
        exponent(self.words.len())
    }

    // The element that an item's word is the number of.
    pub(crate) fn element(&self, item: usize) -> Ext<F>
        requires { item < length self.now.words.now }
        ensures { result ≡ element F.Field.structure (slice_index self.now.words.now item) }
    {
        element(self.words[item])
    }

    // The items before a place, and the others.
    pub(crate) fn split_at(&self, place: usize) -> (Line<'a, F>, Line<'a, F>)
        requires { place ≤ length self.now.words.now }
        ensures lower { result.0.words.now ≡ take place self.now.words.now }
        ensures upper { result.1.words.now ≡ drop place self.now.words.now }
    {
        let (lower, upper) = self.words.split_at(place);
        (
            Line {
                words: lower,
                field: PhantomData,
            },
            Line {
                words: upper,
                field: PhantomData,
            },
        )
    }
}
