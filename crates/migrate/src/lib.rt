// Layer 3: live tables on their way off the interleaved form, chunk by chunk. Definitions and laws.
#![tactic(auto)]
