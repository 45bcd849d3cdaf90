// The words of the absent bays solve four equations, one for each check word.
ghost use Rattle.std.specs.Prelude.{◌≡◌, ℕ, ◌+◌, ◌<◌, ◌≤◌, length, slice_index};
ghost use Rattle.field.specs.Structure.{size};
ghost use Rattle.distance.specs.Column.{column as column_of};
ghost use Rattle.elimination.specs.Places.{place};
ghost use Rattle.restore.specs.Absences.{Absences};
ghost use Rattle.restore.specs.Restored.{absent as absent_by, refusal, Restored, Admitted};
ghost use Rattle.restore.specs.System.{multiple_added, present_sum, Asks, Placed};

use crate::bays::{absent_bays, column};
use crate::refusals::admit;
use elimination::{Equation, Four, equations, solve};
use extension::Ext;
use fault::fault::BookFault;
use field::{BaseField, Field};

// The column times an element, added to four sums.
fn add_multiple<F: BaseField>(sums: Four<Ext<F>>, column: Four<Ext<F>>, by: Ext<F>) -> Four<Ext<F>>
    ensures { result ≡ multiple_added F.Field.structure sums column by }
{
    sums.zip_with(column, |sum, entry| sum.plus(entry.times(by)))
}

// What the present words add to each check word.
fn present_sums<F: BaseField>(words: &[u16], marks: &[u8]) -> Four<Ext<F>>
    requires { Admitted F.Field.structure words.now marks.now }
    ensures { (k : ℕ) → k < 4 → place result k ≡ present_sum F.Field.structure words.now marks.now k }
{
    // By its fields: sums made by a closure would be packed into one number and unpacked again for each bay.
    let zero = Ext::zero();
    let mut sums = Four {
        a: zero,
        b: zero,
        c: zero,
        d: zero,
    };
    for (bay, (word, mark)) in words.iter().zip(marks).enumerate() {
        if *mark == 0 {
            let word = Ext::<F>::element(u32::from(*word));
            sums = add_multiple(sums, column(bay), word);
        }
    }
    sums
}

// The column of an unknown: that of its absent bay, and zeros where there is none.
fn unknown_column<F: BaseField>(absent: &[usize], unknown: usize) -> Four<Ext<F>>
    requires { (j : ℕ) → j < length absent.now → slice_index absent.now j < size F.Field.structure + 4 }
    ensures { unknown < length absent.now → (k : ℕ) → k < 4 → place result k ≡ column_of F.Field.structure (slice_index absent.now unknown) k }
{
    match absent.get(unknown) {
        Some(bay) => column(*bay),
        None => Four::from_fn(|_| Ext::zero()),
    }
}

// The four equations of the absent words.
fn system<F: BaseField>(words: &[u16], marks: &[u8], absent: &[usize]) -> Four<Equation<Ext<F>>>
    requires admitted { Admitted F.Field.structure words.now marks.now }
    requires listed { Absences (absent_by marks.now) (length words.now) absent.now }
    ensures { Asks F.Field.structure words.now marks.now absent.now (length absent.now) result }
{
    let columns = Four::from_fn(|unknown| unknown_column::<F>(absent, unknown));
    equations(columns, present_sums::<F>(words, marks))
}

// Puts the words of the unknowns into the absent bays.
fn fill<F: BaseField>(words: &mut [u16], absent: &[usize], found: Four<Ext<F>>)
    requires few { length absent.now ≤ 4 }
    requires below { (j : ℕ) → j < length absent.now → slice_index absent.now j < length words.old }
    requires rising { (i j : ℕ) → i < j → j < length absent.now → slice_index absent.now i < slice_index absent.now j }
    ensures { Placed F.Field.structure words.old absent.now (length absent.now) found words.new }
{
    for (j, bay) in absent.iter().enumerate() {
        words[*bay] = found[j].number() as u16;
    }
}

// Restores the words of the absent bays, those whose mark is not zero, so that the words are a codeword.
// Two lists, and marks of bytes: the code's rules refuse lists of different lengths, and pairs or `bool`s would ask more of callers.
pub fn restore<F: BaseField>(words: &mut [u16], marks: &[u8]) -> Result<(), BookFault>
    ensures { Restored F.Field.structure (refusal F.Field.structure words.old marks.now) words.old marks.now result words.new }
{
    admit::<F>(words, marks)?;
    let absent = absent_bays(marks);
    let bays = absent.as_slice();
    let system = system::<F>(words, marks, bays);
    let found = solve(system, bays.len()).map_err(|_| BookFault::NoCodeword)?;
    fill(words, bays, found);
    Ok(())
}
