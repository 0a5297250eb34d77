// A setting of one cell of a working table: its masks, and whether the table has room for it.
#![tactic(auto)]

pub mod fit;
pub mod masks;
