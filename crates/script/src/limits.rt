// 01's limits, each in one place; specs/Limits.antt has them for the definitions.
use crate::command::{LENGTHS_WIDTH, MARK_WIDTH, MATCH_WIDTH};

// The longest sequence, in letters.
pub const LONGEST: u32 = 1_000_000_000;

// The most matches of a script.
pub const MOST_MATCHES: usize = 2048;

// The most marks of a script.
pub const MOST_MARKS: usize = 512;

// The longest admitted script, in bytes: lengths, the most matches and marks, end.
pub const LONGEST_SCRIPT: usize = LENGTHS_WIDTH
    + MATCH_WIDTH * MOST_MATCHES
    + MARK_WIDTH * MOST_MARKS
    + 1;
