// 01's lines marked M, and others that say a number of 01's: specs/Lines has them as one table, proofs/Lines the one
// proof that the definitions yield them. There is no code here: the crate stands above all that the lines speak of.
#![tactic(auto)]
