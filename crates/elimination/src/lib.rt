// Solving four linear equations in at most four unknowns over any field, by elimination.
#![tactic(auto)]

mod four;
mod system;

pub use four::Four;
pub use system::{Equation, Unsolved, equations, solve};
