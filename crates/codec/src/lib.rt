// Layer 2: what the stored forms are, and what is read of what was written. Definitions and laws.
#![tactic(auto)]

pub mod place;
