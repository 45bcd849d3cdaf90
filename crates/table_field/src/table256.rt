// The table field of 256 elements. Its type stands apart from its operations, whose meaning speaks of the type.
ghost use Rattle.std.specs.Prelude.{◌<◌};

mod arith;
mod logarithm_table;
mod power_table;

pub use arith::table_equals_pile;

// An element, by its number. It has no `Model`: seen as a number alone it could be 256 or more, where the laws fail.
// Nor is it one type with `Gf4` under a const parameter: this crate may not implement `Field` for a type of crate `field`.
#[derive(Clone, Copy)]
pub struct Table256 {
    n: u8,
    ghost small: { n < 256 },
}
