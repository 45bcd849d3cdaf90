// The operations of the field of four elements: 2 2 = 3, 2 3 = 1, 3 3 = 2.
ghost use Rattle.std.proofs.Math.Dec.{lit≤};
ghost use Rattle.field.specs.Four.{four};

use crate::fields::{BaseField, Field};
use crate::gf4::Gf4;
use fault::fault::BookFault;

// The product of a and b stands at 4 a + b.
const PRODUCTS: [u8; 16] = [0, 0, 0, 0, 0, 1, 2, 3, 0, 2, 3, 1, 0, 3, 1, 2];

const INVERSES: [u8; 4] = [0, 1, 3, 2];

impl Field for Gf4 {
    ghost structure = { four };

    ghost fits = { lit≤ tt };

    fn order() -> u32 {
        4
    }

    fn from_number(n: u32) -> Result<Gf4, BookFault> {
        if n >= 4 {
            return Err(BookFault::NoElement(n as usize));
        }
        Ok(Self::element(n))
    }

    fn element(n: u32) -> Gf4 {
        Gf4 { n: n as u8 }
    }

    fn number(self) -> u32 {
        self.n as u32
    }

    fn constant() -> Gf4 {
        Gf4 { n: 2 }
    }

    fn times(self, other: Gf4) -> Gf4 {
        Gf4 {
            n: PRODUCTS[(4 * self.n + other.n) as usize],
        }
    }

    fn inverse(self) -> Gf4 {
        Gf4 {
            n: INVERSES[self.n as usize],
        }
    }
}

impl BaseField for Gf4 {
    ghost small = { lit≤ tt };
}
