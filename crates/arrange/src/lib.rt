// Every small arrangement: an acceptance set of ragged tables of a few cells. Definitions and laws.
#![tactic(auto)]
