// A line of a round that is written as text, and the frame that it says.
#![tactic(auto)]

pub mod name;
mod number;
pub mod parse;
pub mod reason;
pub mod split;
mod within;
