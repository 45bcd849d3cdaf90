// The extension of a field of at most 256 elements, which has twice the bits, and the piles that it makes of the field of four elements.
#![tactic(auto)]

mod ext;
mod piles;

pub use ext::Ext;
pub use piles::{Gf16, Gf256, Gf65536};
