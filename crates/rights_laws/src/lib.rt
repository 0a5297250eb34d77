// Rights planes combined, cut and merged: laws over the calls.
#![tactic(auto)]
