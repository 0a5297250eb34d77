// Layer 2: the older interleaved form, read.
#![tactic(auto)]

pub mod vlen_v2;
