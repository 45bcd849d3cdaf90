// The piles of 16, 256 and 65536 elements, each the extension of the one before.
ghost use Rattle.std.proofs.Math.Dec.{lit≤};
ghost use Rattle.extension.specs.Extend.{extend};

use crate::ext::Ext;
use field::{BaseField, Field, Gf4};

pub type Gf16 = Ext<Gf4>;

pub type Gf256 = Ext<Gf16>;

// No field is made of this one: it is too large for a base field.
pub type Gf65536 = Ext<Gf256>;

// An impl for each, since which extensions may be extended again hangs on the size of the field at the bottom.
impl BaseField for Ext<Gf4> {
    ghost small = { unfold extend in lit≤ tt };
}

impl BaseField for Ext<Ext<Gf4>> {
    ghost small = { unfold extend in lit≤ tt };
}
