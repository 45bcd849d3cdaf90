// The round file: a list of frames, each of them two bytes of length, two bytes of kind, and a body.
#![tactic(auto)]

mod decode;
pub mod encode;
pub mod frame;
pub mod kind;
pub mod reader;
