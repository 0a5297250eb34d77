// Layer 2, masks: how the mask of a frame lies in stored bytes, over a form.
#![tactic(auto)]

pub mod form;
pub mod strict;
