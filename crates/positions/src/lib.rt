// A list of positions carried together: the answer is that all of them were, or why none was. specs/ has what the call
// does and what is demanded of it, proofs/ the laws of it. There is no function here: the call is `carrying_all`'s.
#![tactic(auto)]
