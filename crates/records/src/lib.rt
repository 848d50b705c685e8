// Lists of matches, a record of four numbers for each, and of marks, two numbers for each: how they are written as a
// script, and a script as lists. specs/ has it, proofs/ the laws of it. There is no function here: the calls are
// `writer`'s and `record_reader`'s.
#![tactic(auto)]

// The numbers of a record, and of a mark; specs/Records.antt has them for the definitions.
pub const RECORD_WIDTH: usize = 4;

pub const MARK_NUMBERS: usize = 2;

// A match in a list: so many letters from left_a on of A and from left_b on of B; direction 0 is direct, 1 reversed.
#[derive(Clone, Copy)]
pub struct Record {
    pub left_a: u32,
    pub left_b: u32,
    pub length: u32,
    pub direction: u32,
}

// What is told of a script that was read into lists: its two lengths, and how many records and marks were written.
#[derive(Clone, Copy)]
pub struct Listed {
    pub p: u32,
    pub q: u32,
    pub count: usize,
    pub marks: usize,
}
