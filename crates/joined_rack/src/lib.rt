// The joined rack: two racks of any make side by side.
#![tactic(auto)]

mod find;
pub mod make;
pub mod pair;
pub mod sides;
