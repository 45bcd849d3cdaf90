// What a rack is: the side that reads, the side that serves, what reading finds out, and a lent rack.
#![tactic(auto)]

pub mod ask;
pub mod error;
pub mod lent;
pub mod sides;
