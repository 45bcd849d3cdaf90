// The operations of the table field: products and inverses by the logarithms to the element numbered 18.
ghost use Rattle.std.specs.Prelude.{◌≡◌, ◌<◌};
ghost use Rattle.extension.specs.Piles.{gf256};
ghost use Rattle.table_field.specs.Equals.{Equals};
ghost use Rattle.table_field.specs.Table.{table256 as the_table, power_number};
ghost use Rattle.std.proofs.Math.Dec.{lit≤};

use crate::table256::Table256;
use crate::table256::logarithm_table::LOGARITHMS;
use crate::table256::power_table::POWERS;
use fault::fault::BookFault;
use field::{BaseField, Field};

// The number of the power i of 18.
#[tactic(auto, using(crate::proofs::Tables::power_rule))]
fn power(i: usize) -> u8
    ensures { result ≡ power_number gf256 18 i }
{
    POWERS[i % 255]
}

fn logarithm(n: u8) -> usize
    requires { 0 < n }
    ensures below { result < 255 }
    ensures is { power_number gf256 18 result ≡ n }
{
    LOGARITHMS[n as usize] as usize
}

impl Field for Table256 {
    ghost structure = { the_table };

    ghost fits = { lit≤ tt };

    fn order() -> u32 {
        256
    }

    fn from_number(n: u32) -> Result<Table256, BookFault> {
        if n >= 256 {
            return Err(BookFault::NoElement(n as usize));
        }
        Ok(Self::element(n))
    }

    fn element(n: u32) -> Table256 {
        Table256 { n: n as u8 }
    }

    fn number(self) -> u32 {
        self.n as u32
    }

    #[tactic(auto, unfolding(extension::specs::Extend::extend))]
    fn constant() -> Table256 {
        Self::element(128)
    }

    // Two logarithms and one power.
    #[tactic(auto, using(crate::proofs::Powers::power_sum, crate::proofs::Powers::zero_product, crate::proofs::Powers::product_zero))]
    fn times(self, other: Table256) -> Table256 {
        if self.n == 0 || other.n == 0 {
            return Self::zero();
        }
        Self::element(power(logarithm(self.n) + logarithm(other.n)) as u32)
    }

    #[tactic(auto, using(crate::proofs::Tables::power_inverse, crate::proofs::Powers::zero_inverse))]
    fn inverse(self) -> Table256 {
        if self.n == 0 {
            return Self::zero();
        }
        Self::element(power(255 - logarithm(self.n)) as u32)
    }
}

impl BaseField for Table256 {
    ghost small = { lit≤ tt };
}

// The table field equals the pile of 256 elements in number, sum, product, inverse and constant.
#[tactic(auto, using(crate::proofs::Numbers::equals_pile))]
pub fn table_equals_pile()
    ensures { Equals the_table gf256 }
{}
