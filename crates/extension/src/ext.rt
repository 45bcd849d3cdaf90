// The quadratic extension of a field: lo + hi u, with u u = u + v.
ghost use Rattle.std.specs.Prelude.{◌≡◌};
ghost use Rattle.extension.specs.Extend.{extend};
ghost use Rattle.extension.specs.Formulas.{embed, root_u};
ghost use Rattle.std.proofs.Common.{arith};

use fault::fault::BookFault;
use field::{BaseField, Field};

// The element lo + hi u; its number is lo's plus q times hi's.
#[derive(Clone, Copy)]
pub struct Ext<F> {
    pub lo: F,
    pub hi: F,
}

// An element of the base field.
impl<F: BaseField> From<F> for Ext<F> {
    ghost from_gives = { λ a r. r ≡ embed F.Field.structure a };

    fn from(a: F) -> Ext<F> {
        Ext {
            lo: a,
            hi: F::zero(),
        }
    }
}

impl<F: BaseField> Ext<F> {
    // The new element u.
    pub fn u() -> Ext<F>
        ensures { result ≡ root_u F.Field.structure }
    {
        Ext {
            lo: F::zero(),
            hi: F::one(),
        }
    }

    // The product with an element of the base field: two products there.
    #[tactic(auto, using(crate::proofs::Short::scaled_is))]
    pub fn scaled(self, by: F) -> Ext<F>
        ensures { result ≡ (extend F.Field.structure).times self (embed F.Field.structure by) }
    {
        Ext {
            lo: self.lo.times(by),
            hi: self.hi.times(by),
        }
    }
}

#[tactic(auto, unfolding(crate::specs::Extend::extend))]
impl<F: BaseField> Field for Ext<F> {
    ghost structure = { extend F.Field.structure };

    ghost fits = { unfold extend in omega (arith, F.BaseField.small) };

    #[tactic(auto, using(crate::proofs::Parts::order_is))]
    fn order() -> u32 {
        F::order() * F::order()
    }

    fn from_number(n: u32) -> Result<Ext<F>, BookFault> {
        if n >= Self::order() {
            return Err(BookFault::NoElement(n as usize));
        }
        Ok(Self::element(n))
    }

    #[tactic(auto, unfolding(crate::specs::Extend::extend), using(crate::proofs::Parts::high_lt))]
    fn element(n: u32) -> Ext<F> {
        let q = F::order();
        Ext {
            lo: F::element(n % q),
            hi: F::element(n / q),
        }
    }

    fn number(self) -> u32 {
        self.hi.number() * F::order() + self.lo.number()
    }

    fn zero() -> Ext<F> {
        Ext::from(F::zero())
    }

    fn one() -> Ext<F> {
        Ext::from(F::one())
    }

    fn constant() -> Ext<F> {
        Ext {
            lo: F::zero(),
            hi: F::constant(),
        }
    }

    fn plus(self, other: Ext<F>) -> Ext<F> {
        Ext {
            lo: self.lo.plus(other.lo),
            hi: self.hi.plus(other.hi),
        }
    }

    // With a + b u and c + d u, the part of u, a d + b c + b d, is (a + b) (c + d) + a c: four products in place of five.
    #[tactic(auto, using(crate::proofs::Short::product_is))]
    fn times(self, other: Ext<F>) -> Ext<F> {
        let low = self.lo.times(other.lo);
        let high = self.hi.times(other.hi);
        let cross = self.lo.plus(self.hi).times(other.lo.plus(other.hi));
        Ext {
            lo: low.plus(high.times(F::constant())),
            hi: cross.plus(low),
        }
    }

    // The conjugate (a + b) + b u, times the inverse of the norm a (a + b) + b b v.
    fn inverse(self) -> Ext<F> {
        let sum = self.lo.plus(self.hi);
        let norm = self
            .lo
            .times(sum)
            .plus(self.hi.times(self.hi).times(F::constant()));
        let i = norm.inverse();
        Ext {
            lo: sum.times(i),
            hi: self.hi.times(i),
        }
    }
}
