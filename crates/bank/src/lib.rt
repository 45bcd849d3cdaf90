// The bank: one book on one rack, call by call, and the theorem that holds of every run.
#![tactic(auto)]

mod drawers;
mod runs;
mod turns;

pub use drawers::Drawer;
pub use runs::{NotStarted, Watch, run};
pub use turns::turn;
