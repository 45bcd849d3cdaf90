// Fields of 2, 4, .. 16 bits with numbered elements: the interface, and the field of four elements.
#![tactic(auto)]

mod fields;
mod gf4;

pub use fields::{BaseField, Field};
pub use gf4::Gf4;
