// The sums R(S) of a line by halves, one by one: R(S) is the sum of the words whose item number has every bit of S.
ghost use Rattle.std.specs.Prelude.{◌≡◌, ◌≤◌};
ghost use Rattle.extension.specs.Extend.{extend};
ghost use Rattle.halves.specs.Runs.{run};
ghost use Rattle.halves.specs.Moments.{items_of};
ghost use Rattle.line_code.specs.Sets.{holds};
ghost use Rattle.line_code.specs.Sums.{check_sums};

use crate::admit::Line;
use crate::bits::{BitSet, run_length};
use crate::factors::prepare;
use crate::moments::Constants;
use crate::sums::Sums;
use extension::Ext;
use field::{BaseField, Field};

// The sum over a run of 2^exponent words; those past the end of the line are zero.
// Where the set holds the top bit the upper half alone counts, otherwise both halves.
fn sum_over<F: BaseField>(line: &Line<F>, exponent: usize, set: BitSet) -> Ext<F>
    requires { exponent ≤ 8 }
    ensures { result ≡ run (extend F.Field.structure) (holds set) exponent (items_of F.Field.structure line.now.words.now) }
{
    if line.words.is_empty() {
        return Ext::zero();
    }
    if exponent == 0 {
        return line.element(0);
    }
    let top = exponent - 1;
    let (lower, upper) = line.split_at(line.words.len().min(run_length(top)));
    let above = sum_over(&upper, top, set);
    if set.holds(top) {
        above
    } else {
        sum_over(&lower, top, set).plus(above)
    }
}

// The four sums of a line, with a walk over the line for each R(S).
pub(crate) fn sums_by_halves<F: BaseField>(line: &Line<F>) -> Sums<F>
    ensures { result ≡ check_sums F.Field.structure line.now.words.now }
{
    let bits = line.bits();
    Constants::of(&prepare::<F>(bits), bits)
        .moments(|set| sum_over(line, bits, set))
        .shifted()
}
