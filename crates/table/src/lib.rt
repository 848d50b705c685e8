// What is found in a piece table and what sums it up: a part of the table, and the summary. specs/ has what they are of
// a table with any contents, proofs/ the laws of it; `match_rows`, `distinct_pieces`, `covered_letters` and `summary`
// have the functions.
// A caller hands over its finished rows alone, `&table[..n * ROW_WIDTH]`: what stands behind them is read as rows too.
#![tactic(auto)]

pub mod finding;
pub mod summing;

pub use finding::Span;
pub use summing::{CLASSES, Summary};
