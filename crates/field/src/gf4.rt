// The field of four elements. Its type stands apart from its operations, whose meaning speaks of the type.
ghost use Rattle.std.specs.Prelude.{◌<◌};

mod arith;

// An element, by its number. It has no `Model`: seen as a number alone it could be 4 or more, where the laws fail.
// Nor is it one type with `Table256` under a const parameter: that one's operations stand in a crate above, which may not
// implement `Field` for a type of this crate.
#[derive(Clone, Copy)]
pub struct Gf4 {
    n: u8,
    ghost small: { n < 4 },
}
