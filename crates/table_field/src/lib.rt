// The field of 256 elements by tables of powers and logarithms: the base field to choose for lines of up to 256 items.
#![tactic(auto)]

mod table256;

pub use table256::{Table256, table_equals_pile};
