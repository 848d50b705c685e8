// The matches with the tracks that they join: what is said of them and proved.
#![tactic(auto)]
