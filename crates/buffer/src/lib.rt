// Layer 1: numbers and bytes in a buffer, read and written.
#![tactic(auto)]

pub mod copy;
pub mod field;
pub mod room;
