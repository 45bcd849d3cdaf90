// The plain rack, whose words lie in memory.
#![tactic(auto)]

mod cells;
pub mod make;
pub mod parts;
pub mod sides;
#[cfg(test)]
mod tests;
