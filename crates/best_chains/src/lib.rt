// The best chain from each row: what it is, and how it is made of those of the rows that may follow. specs/ has the
// definitions, proofs/ the laws. There is no function here.
#![tactic(auto)]
