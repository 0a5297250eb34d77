// Layer 3: reading followed by a cut.
#![tactic(auto)]

pub mod vlen_partial;
