// Layer 1: which kinds, shapes and contents are valid.
#![tactic(auto)]

pub mod array_bytes;
pub mod kind;
pub mod masks;
pub mod numbers;
pub mod shape;
