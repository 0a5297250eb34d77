// Layer 2: the older interleaved form, written.
#![tactic(auto)]

pub mod write;
