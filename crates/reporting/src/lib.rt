// What is printed: the answer of the call that makes the text. specs/ has the text of every input and what the call
// does, proofs/ the laws of it. There is no function here: the call is `report`'s, and answers the length of the text.
#![tactic(auto)]

// The text needs so many bytes; nothing is written.
#[derive(Clone, Copy)]
pub struct TextTooShort {
    pub needed: usize,
}

// What a try with a small table answers: the reply of the call; or that the table needs more rows, and then nothing is
// written, and what was read is handed on.
#[derive(Drop)]
pub enum Brief {
    Answered(Result<usize, TextTooShort>),
    Larger { p: u32, q: u32, count: usize },
}
