// Layer 2, packed masks: the bits of a stored mask counted and tested.
#![tactic(auto)]

pub mod bits;
pub mod packed;
