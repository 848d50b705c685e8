// The number and the place that a refusal returns.
#![tactic(auto)]

ghost use Rattle.std.specs.Prelude.{◌≡◌};
ghost use Rattle.script.specs.Refusals.{number_of, place_of};

use script::Refusal;

// The number of a refusal: 01's, or that a request gives it.
pub fn number_of(refusal: Refusal) -> u32
    ensures { result ≡ number_of refusal }
{
    match refusal {
        Refusal::Headless => 1,
        Refusal::UnknownCommand(_) => 2,
        Refusal::CutShort(_) => 3,
        Refusal::SecondLengths(_) => 4,
        Refusal::LengthOutOfRange => 5,
        Refusal::TooManyMatches(_) => 6,
        Refusal::EmptyMatch(_) => 7,
        Refusal::BeyondA(_) => 8,
        Refusal::BeyondB(_) => 9,
        Refusal::Tail(_) => 10,
        Refusal::WorkTooShort => 11,
        Refusal::TooManyPieces => 12,
        Refusal::NoSuchMatch => 13,
        Refusal::OffTheMatch => 14,
        Refusal::MalformedRecords(_) => 15,
        Refusal::BufferTooShort => 16,
        Refusal::PriceTooHigh => 17,
        Refusal::ChainTooShort => 18,
        Refusal::TooManyMarks(_) => 19,
        Refusal::NoSuchSide(_) => 20,
        Refusal::MarkBeyond(_) => 21,
        Refusal::CountsDiffer => 22,
    }
}

// The place that a refusal returns beside its number.
pub fn place_of(refusal: Refusal) -> usize
    ensures { result ≡ place_of refusal }
{
    match refusal {
        Refusal::UnknownCommand(at)
        | Refusal::CutShort(at)
        | Refusal::SecondLengths(at)
        | Refusal::TooManyMatches(at)
        | Refusal::EmptyMatch(at)
        | Refusal::BeyondA(at)
        | Refusal::BeyondB(at)
        | Refusal::Tail(at)
        | Refusal::MalformedRecords(at)
        | Refusal::TooManyMarks(at)
        | Refusal::NoSuchSide(at)
        | Refusal::MarkBeyond(at) => at,
        Refusal::Headless
        | Refusal::LengthOutOfRange
        | Refusal::WorkTooShort
        | Refusal::TooManyPieces
        | Refusal::NoSuchMatch
        | Refusal::OffTheMatch
        | Refusal::BufferTooShort
        | Refusal::PriceTooHigh
        | Refusal::ChainTooShort
        | Refusal::CountsDiffer => 0,
    }
}
