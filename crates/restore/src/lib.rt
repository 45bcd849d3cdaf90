// Restoring a line from the words of any N of its N + 4 bays.
#![tactic(auto)]

mod bays;
mod refusals;
mod restoring;
mod worked;

pub use restoring::restore;
pub use worked::worked_restorings_stand;
