// Rights planes: what a guest may see of an array, and which cells of a working table it may set. Definitions and laws, and the plane's rule.
#![tactic(auto)]

pub mod plane;
