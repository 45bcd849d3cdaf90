// A round: the frames of a round file with their numbers and places, and what each asks of the runner.
#![tactic(auto)]

pub mod rounds;
pub mod tasks;
