// One command of a script: what stands at the start of a remainder, without what it means for the script.

// The widths are in bytes, with the command byte; specs/Commands.antt has them for the definitions.

// The command of the two lengths.
pub const LENGTHS_WIDTH: usize = 9;

// A match command, whichever way it is read.
pub const MATCH_WIDTH: usize = 13;

// A mark command.
pub const MARK_WIDTH: usize = 6;

// Letters left_a to left_a + length of A and left_b to left_b + length of B, read the same way or one backwards. A and
// B are named by their tracks, 0 and 1.
#[derive(Clone, Copy)]
pub struct Match {
    pub track_a: u8,
    pub track_b: u8,
    pub left_a: u32,
    pub left_b: u32,
    pub length: u32,
    pub reversed: bool,
}

// A position of a sequence that is to be a cut: side 0 is A, 1 is B.
#[derive(Clone, Copy)]
pub struct Mark {
    pub side: u8,
    pub position: u32,
}

#[derive(Clone, Copy)]
pub enum Command {
    // No byte is left.
    Missing,
    // A byte that begins no command.
    Unknown,
    Lengths { p: u32, q: u32 },
    LengthsCutShort,
    Pairing(Match),
    MatchCutShort,
    Marking(Mark),
    MarkCutShort,
    // The last byte of the script.
    End,
    EndThenMore,
}
