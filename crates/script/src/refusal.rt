// The refusals: one variant for each row of 01's table and of the requests after it, holding its place where that
// varies.
#[derive(Clone, Copy)]
pub enum Refusal {
    Headless,
    UnknownCommand(usize),
    CutShort(usize),
    SecondLengths(usize),
    LengthOutOfRange,
    TooManyMatches(usize),
    EmptyMatch(usize),
    BeyondA(usize),
    BeyondB(usize),
    Tail(usize),
    WorkTooShort,
    TooManyPieces,
    NoSuchMatch,
    OffTheMatch,
    MalformedRecords(usize),
    BufferTooShort,
    PriceTooHigh,
    ChainTooShort,
    TooManyMarks(usize),
    NoSuchSide(usize),
    MarkBeyond(usize),
    CountsDiffer,
}
