// Layer 1: what an array is: its kind, what a mask byte says, the answers of the calls, the refusals.
#![tactic(auto)]

pub mod answer;
pub mod content;
pub mod kind;
pub mod mark;
pub mod refusal;
