// The absent bays, and the columns of bays.
ghost use Rattle.std.specs.Prelude.{◌≡◌, ℕ, ◌+◌, ◌<◌, ◌≤◌, length};
ghost use Rattle.field.specs.Structure.{size};
ghost use Rattle.codeword.specs.Sums.{count as tally};
ghost use Rattle.distance.specs.Column.{column as column_of};
ghost use Rattle.elimination.specs.Places.{place};
ghost use Rattle.restore.specs.Restored.{absent};
ghost use Rattle.restore.specs.Absences.{Absences};

use arrayvec::ArrayVec;
use elimination::Four;
use extension::Ext;
use field::{BaseField, Field};

// The absent bays in rising order.
pub(crate) fn absent_bays(marks: &[u8]) -> ArrayVec<usize, 4>
    requires { tally (absent marks.now) (length marks.now) ≤ 4 }
    ensures { Absences (absent marks.now) (length marks.now) result.items }
{
    let mut bays = ArrayVec::new();
    for (bay, mark) in marks.iter().enumerate() {
        if *mark != 0 {
            bays.push(bay);
        }
    }
    bays
}

// The column of a bay: for each check word, what the bay's word is multiplied by in it.
pub(crate) fn column<F: BaseField>(bay: usize) -> Four<Ext<F>>
    requires { bay < size F.Field.structure + 4 }
    ensures { (k : ℕ) → k < 4 → place result k ≡ column_of F.Field.structure bay k }
{
    if bay < 4 {
        return Four::from_fn(|k| if k == bay { Ext::one() } else { Ext::zero() });
    }
    let h = Ext {
        lo: F::element((bay - 4) as u32),
        hi: F::one(),
    };
    let hh = h.times(h);
    Four {
        a: Ext::one(),
        b: h,
        c: hh,
        d: hh.times(h),
    }
}
