// The working table: masks, and for each cell a start and a length in a lent store. Definitions and laws.
#![tactic(auto)]

pub mod answer;
pub mod lent;
