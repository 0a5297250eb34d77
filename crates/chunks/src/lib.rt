// Layer 3: cutting and merging.
#![tactic(auto)]
