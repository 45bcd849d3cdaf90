// The four sums of a line, item by item, and the words that they are.
ghost use Rattle.std.specs.Prelude.{◌≡◌, ◌<◌, ◌≤◌, length};
ghost use Rattle.field.specs.Structure.{size};
ghost use Rattle.extension.specs.Extend.{extend};
ghost use Rattle.codeword.specs.Codeword.{point};
ghost use Rattle.line_code.specs.Sums.{check_sums, sums_with, written};

use crate::admit::Line;
use extension::Ext;
use field::{BaseField, Field};

// Over all items the sum of d·h^l, for l from 0 to 3: d is the item's word and h its point.
#[derive(Drop)]
pub struct Sums<F> {
    pub zeroth: Ext<F>,
    pub first: Ext<F>,
    pub second: Ext<F>,
    pub third: Ext<F>,
}

// The element that a word is the number of.
pub(crate) fn element<F: BaseField>(word: u16) -> Ext<F>
    requires { word < size (extend F.Field.structure) }
    ensures { result ≡ (extend F.Field.structure).of word }
{
    Ext::<F>::element(word as u32)
}

// The point of an item, w + u.
fn point<F: BaseField>(item: usize) -> Ext<F>
    requires { item < size F.Field.structure }
    ensures { result ≡ point F.Field.structure item }
{
    Ext {
        lo: F::element(item as u32),
        hi: F::one(),
    }
}

// The word of an element, its number.
fn word<F: BaseField>(x: Ext<F>) -> u16
    ensures { result ≡ (extend F.Field.structure).value x }
{
    x.number() as u16
}

impl<F: BaseField> Sums<F> {
    // The sums with one more item.
    fn with(self, d: Ext<F>, h: Ext<F>) -> Sums<F>
        ensures { result ≡ sums_with F.Field.structure self d h }
    {
        let dh = d.times(h);
        let dhh = dh.times(h);
        let dhhh = dhh.times(h);
        Sums {
            zeroth: self.zeroth.plus(d),
            first: self.first.plus(dh),
            second: self.second.plus(dhh),
            third: self.third.plus(dhhh),
        }
    }

    // Writes the four words to the first places of a list.
    pub(crate) fn write(self, checks: &mut [u16])
        requires { 4 ≤ length checks.old }
        ensures { checks.new ≡ written F.Field.structure self checks.old }
    {
        checks[0] = word(self.zeroth);
        checks[1] = word(self.first);
        checks[2] = word(self.second);
        checks[3] = word(self.third);
    }
}

// The sums of a line by their definition: three products and four sums for each item.
pub(crate) fn plain_sums<F: BaseField>(line: &Line<F>) -> Sums<F>
    ensures { result ≡ check_sums F.Field.structure line.now.words.now }
{
    let mut sums = Sums {
        zeroth: Ext::zero(),
        first: Ext::zero(),
        second: Ext::zero(),
        third: Ext::zero(),
    };
    // As a fold, the closure would need a contract of its own, longer than this loop's invariant.
    for (item, word) in line.words.iter().enumerate() {
        sums = sums.with(element(*word), point(item));
    }
    sums
}
