// Storing the chunks of a merge: each row of a chunk is one run, in the chunk and in the output.
#![tactic(auto)]

pub mod cells;
pub mod ragged;
