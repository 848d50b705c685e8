// The backbone of a cross: the best chain of direct pieces in the same order on both genomes. specs/ has what it is and
// what the call does, proofs/ the laws of it. There is no function here: the call is `chain`'s.
#![tactic(auto)]

// The score of the best chain, the rows of the table, and how many of them the chain has.
#[derive(Clone, Copy)]
pub struct Chained {
    pub score: u64,
    pub rows: usize,
    pub length: usize,
}
