// Lists of numbers and of bytes read from text, for programs.
#![tactic(auto)]

pub mod scan;
