// Why a call was refused: the layer, the number and the place that the refusal table gives it.
#![tactic(auto)]

pub mod fault;
pub mod layer;
