// Where the rows of one match stand.

// A part of a table: from the number at `start` up to the number at `end`.
#[derive(Drop)]
pub struct Span {
    pub start: usize,
    pub end: usize,
}
