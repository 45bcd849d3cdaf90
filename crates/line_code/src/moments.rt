// The Reed-Muller way: t0 to t3 of a line from its sums R(S), and the check sums from them.
ghost use Rattle.std.specs.Prelude.{◌≡◌, ◌<◌, ◌≤◌, List, ℕ, length};
ghost use Rattle.halves.specs.Moments.{by_u};
ghost use Rattle.line_code.specs.ByHalves.{moments_of, pair_row, shares_of, shifted_sums};
ghost use Rattle.line_code.specs.Prepared.{Prepared};
ghost use Rattle.line_code.specs.Sets.{Callable, GivesSums};

use crate::bits::BitSet;
use crate::factors::{Factors, bit, factor};
use crate::sums::Sums;
use extension::Ext;
use field::{BaseField, Field};
use std::marker::PhantomData;

// The factors of every bit of a line's item numbers, in their order.
#[derive(Drop)]
pub(crate) struct Constants<'a, F: BaseField> {
    pub factors: &'a [Factors],
    field: PhantomData<F>,
    ghost within: { length factors.now ≤ F.Field.structure.bits },
    ghost prepared: { Prepared F.Field.structure (length factors.now) factors.now },
}

impl<'a, F: BaseField> Constants<'a, F> {
    // Those of the lowest bits.
    pub(crate) fn of(prepared: &'a [Factors; 8], bits: usize) -> Constants<'a, F>
        requires within { bits ≤ F.Field.structure.bits }
        requires prepared { Prepared F.Field.structure bits prepared.now }
        ensures { length result.factors.now ≡ bits }
    {
        Constants {
            factors: &prepared[..bits],
            field: PhantomData,
        }
    }

    // The mixed terms of the pairs j < k, for one k.
    fn mixed_sum<S: Fn(BitSet) -> Ext<F>>(&self, k: usize, sum: &S) -> Ext<F>
        requires within { k < length self.now.factors.now }
        requires callable { Callable (length self.now.factors.now) (S.pre sum.now) }
        ensures { (line : List ℕ) → GivesSums F.Field.structure line (length self.now.factors.now) (S.post sum.now) → result ≡ pair_row F.Field.structure line (length self.now.factors.now) k }
    {
        let factors = &self.factors[k];
        let mut total = Ext::zero();
        // As a fold, the closure would need a contract of its own, longer than this loop's invariant.
        for j in 0..k {
            let part = sum(BitSet::Two(j, k));
            total = total.plus(part.scaled(factor(factors.mixed[j])));
        }
        total
    }

    // The products of R(k) with v_k, its square and its cube. The element v_0 is one, so bit 0 takes no product.
    fn shares(&self, part: Ext<F>, k: usize) -> Sums<F>
        requires { k < length self.now.factors.now }
        ensures { result ≡ shares_of F.Field.structure part k }
    {
        if k == 0 {
            return Sums {
                zeroth: part,
                first: part,
                second: part,
                third: part,
            };
        }
        let factors = &self.factors[k];
        Sums {
            zeroth: part,
            first: part.scaled(bit(k)),
            second: part.scaled(factor(factors.square)),
            third: part.scaled(factor(factors.cube)),
        }
    }

    // t0 to t3 of the line whose sums R(S) the closure gives, padded with zero words to 2^n words, n being the number of
    // bits.
    pub(crate) fn moments<S: Fn(BitSet) -> Ext<F>>(&self, sum: S) -> Sums<F>
        requires { Callable (length self.now.factors.now) (S.pre sum) }
        ensures { (line : List ℕ) → GivesSums F.Field.structure line (length self.now.factors.now) (S.post sum) → result ≡ moments_of F.Field.structure line (length self.now.factors.now) }
    {
        let mut first = Ext::zero();
        let mut second = Ext::zero();
        let mut cubes = Ext::zero();
        let mut pairs = Ext::zero();
        // By number, since the closure, too, takes the number of a bit.
        for k in 0..self.factors.len() {
            let share = self.shares(sum(BitSet::One(k)), k);
            first = first.plus(share.first);
            second = second.plus(share.second);
            cubes = cubes.plus(share.third);
            pairs = pairs.plus(self.mixed_sum(k, &sum));
        }
        Sums {
            zeroth: sum(BitSet::Empty),
            first,
            second,
            third: cubes.plus(pairs),
        }
    }
}

// The product with u: with a + b u it is b v + (a + b) u, one product in the base field.
fn by_u<F: BaseField>(x: Ext<F>) -> Ext<F>
    ensures { result ≡ by_u F.Field.structure x }
{
    Ext {
        lo: x.hi.times(F::constant()),
        hi: x.lo.plus(x.hi),
    }
}

impl<F: BaseField> Sums<F> {
    // From the sums of d·w^l those of d·(w + u)^l.
    pub(crate) fn shifted(self) -> Sums<F>
        ensures { result ≡ shifted_sums F.Field.structure self }
    {
        let once = by_u(self.zeroth);
        let first = self.first.plus(once);
        Sums {
            zeroth: self.zeroth,
            first,
            second: self.second.plus(by_u(once)),
            third: self.third.plus(by_u(self.second.plus(by_u(first)))),
        }
    }
}
