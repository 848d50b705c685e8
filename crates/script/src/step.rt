// What one command does to the script read so far, where it has no fault.
use crate::command::{Mark, Match};

// The letters of A and of B, which the first command tells.
#[derive(Clone, Copy)]
pub struct Lengths {
    pub p: u32,
    pub q: u32,
}

// What a later command does.
#[derive(Clone, Copy)]
pub enum Step {
    Finish,
    Take(Match),
    Keep(Mark),
}
