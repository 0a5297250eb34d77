// A load anyone can repeat: the generator and the table drawn from it. Definitions and laws.
#![tactic(auto)]
