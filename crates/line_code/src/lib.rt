// The line code: the four check words of a line of counts.
#![tactic(auto)]

mod admit;
mod bits;
mod encoder;
mod factors;
mod gathering;
mod halving;
mod line;
mod moments;
mod sums;

pub use encoder::Encoder;
pub use line::{encode, encode_by_halves, encode_by_sums, worked_lines_stand};
