// Match scripts: their limits, commands, refusals, and the replies of the reader. specs/ has what a string of bytes is
// as a script and what is refused, proofs/ the laws of it. The reader is `reader`'s.
#![tactic(auto)]

pub mod command;
pub mod limits;
pub mod refusal;
pub mod step;

pub use command::{Mark, Match};
pub use refusal::Refusal;

// What is told of an admitted script: its two lengths, and how many matches and marks it has.
#[derive(Clone, Copy)]
pub struct Admitted {
    pub p: u32,
    pub q: u32,
    pub count: usize,
    pub marks: usize,
}
