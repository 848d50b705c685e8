// What refining and carrying are. specs/ has what the calls do and what is demanded of them, proofs/ the laws of it.
// There is no function here: the calls are `refine`'s and `carrying`'s, and answer the number of rows in the table and
// where the position lies on the other side, or a refusal.
#![tactic(auto)]
