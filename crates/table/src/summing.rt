// What a summary holds.

// The classes of lengths: class c is of those from 2^c on, below 2^(c + 1).
pub const CLASSES: usize = 30;

// `covers` has the letters that are covered on A, and those on B.
#[derive(Clone, Copy)]
pub struct Summary {
    pub pieces: usize,
    pub distinct: usize,
    pub covers: [u64; 2],
    pub classes: [usize; CLASSES],
}
