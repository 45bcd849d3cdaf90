// Serving a round: a hall's racks and its bank from an accepted start on.
#![tactic(auto)]

mod halls;
mod serving;

pub use halls::Hall;
pub use serving::{NotServed, serve};
