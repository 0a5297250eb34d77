// Handing the stored values of set cells out to the cells of a plane.
#![tactic(auto)]

mod pairs;
mod runs;
pub mod values;
