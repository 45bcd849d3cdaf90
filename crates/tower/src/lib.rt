// Products and inverses of numbers in any field, and Cantor's tower as theorems of the fields: each is the contract of a function.
#![tactic(auto)]

ghost use Rattle.std.specs.Prelude.{◌≡◌, ℕ, ◌^◌};
ghost use Rattle.field.specs.Structure.{size};
ghost use Rattle.field.specs.Numbers.{product as product_of};
ghost use Rattle.tower.specs.Tower.{Tower};
ghost use Rattle.tower.specs.Product.{tower_product, numbers_answer, inverse_answer, Fixed};
ghost use Rattle.tower.specs.Piles.{Grows, PilesAreTowers};
ghost use Rattle.tower.specs.Worked.{AllHold, worked};

use fault::fault::BookFault;
use field::{BaseField, Field};

// The number of the product of the elements of two numbers. In a tower it is the product that the generators fix.
pub fn product<F: Field>(a: u32, b: u32) -> Result<u32, BookFault>
    ensures value { result ≡ numbers_answer (product_of F.structure) (size F.structure) a b }
    ensures tower { (m : ℕ) → Tower F.structure m → result ≡ numbers_answer (tower_product m) (2 ^ (2 ^ m)) a b }
{
    let x = F::from_number(a)?;
    let y = F::from_number(b)?;
    Ok(x.times(y).number())
}

// The number of the inverse of the element of a number.
pub fn inverse<F: Field>(a: u32) -> Result<u32, BookFault>
    ensures { result ≡ inverse_answer F.structure a }
{
    let x = F::from_number(a)?;
    Ok(x.inverse().number())
}

// The extension of a tower is a tower, with the generator u more.
pub fn tower_grows<F: BaseField>()
    ensures { Grows F.Field.structure }
{}

// The relations of the generators fix every product of a tower.
#[tactic(auto, using(crate::proofs::Fixed::fixed))]
pub fn tower_fixes_products<F: Field>()
    ensures { (m : ℕ) → Tower F.structure m → Fixed F.structure m }
{}

// The fields of 4, 16, 256 and 65536 elements are Cantor's tower.
#[tactic(auto, using(crate::proofs::Towers::piles_are_towers))]
pub fn tower_stands()
    ensures { PilesAreTowers }
{}

// The worked products and inverses of the piles.
#[tactic(auto, unfolding(extension::specs::Extend::extend))]
pub fn worked_products_stand()
    ensures { AllHold worked }
{}
