// The line of a rack, restored from its present bays onto a worksheet.
#![tactic(auto)]

mod bays;
mod looking;
mod restoring;

pub use bays::BaySet;
pub use looking::{count_word, present_word};
pub use restoring::restore_line;
