// What one command does to the script read so far, with the refusals in 01's order.
#![tactic(auto)]

ghost use Rattle.std.specs.Prelude.{◌≡◌, ◌<◌};
ghost use Rattle.script.specs.Steps.{in_range, lengths_step, opening_of};
ghost use Rattle.script.specs.Steps.{match_judgement, match_step, cut_short_step, letters_on};
ghost use Rattle.script.specs.Steps.{mark_judgement, mark_step, mark_cut_short_step, step_of};

use script::Refusal;
use script::command::{Command, Mark, Match};
use script::limits::{LONGEST, MOST_MARKS, MOST_MATCHES};
use script::step::{Lengths, Step};

// Whether a sequence may have this many letters.
fn in_range(letters: u32) -> bool
    ensures { result ≡ in_range letters }
{
    0 < letters && letters <= LONGEST
}

// The two lengths, of a script or of a list.
pub fn judge_lengths(p: u32, q: u32) -> Result<Lengths, Refusal>
    ensures { result ≡ lengths_step p q }
{
    if in_range(p) && in_range(q) {
        Ok(Lengths { p, q })
    } else {
        Err(Refusal::LengthOutOfRange)
    }
}

// The first command must be lengths.
pub fn judge_opening(command: Command) -> Result<Lengths, Refusal>
    ensures { result ≡ opening_of command }
{
    match command {
        Command::Lengths { p, q } => judge_lengths(p, q),
        Command::LengthsCutShort => Err(Refusal::CutShort(0)),
        _ => Err(Refusal::Headless),
    }
}

// The numbers of a match, of a script or of a list: 7, 8, 9. The sums are taken in 64 bits, where they cannot wrap.
pub fn judge_numbers(found: Match, p: u32, q: u32, place: usize) -> Result<(), Refusal>
    ensures { result ≡ match_judgement p q place found }
{
    if found.length == 0 {
        return Err(Refusal::EmptyMatch(place));
    }
    if (p as u64) < found.left_a as u64 + found.length as u64 {
        return Err(Refusal::BeyondA(place));
    }
    if (q as u64) < found.left_b as u64 + found.length as u64 {
        return Err(Refusal::BeyondB(place));
    }
    Ok(())
}

// A whole match: 6, then its numbers.
fn judge_match(found: Match, p: u32, q: u32, count: usize, at: usize) -> Result<Step, Refusal>
    ensures { result ≡ match_step p q count at found }
{
    if MOST_MATCHES <= count {
        return Err(Refusal::TooManyMatches(at));
    }
    judge_numbers(found, p, q, at)?;
    Ok(Step::Take(found))
}

// A match whose operands are incomplete: 6, 3.
fn judge_cut_short(count: usize, at: usize) -> Result<Step, Refusal>
    ensures { result ≡ cut_short_step count at }
{
    if MOST_MATCHES <= count {
        Err(Refusal::TooManyMatches(at))
    } else {
        Err(Refusal::CutShort(at))
    }
}

// The letters of the sequence on this side.
fn letters_on(p: u32, q: u32, side: u32) -> u32
    ensures { result ≡ letters_on p q side }
{
    if side == 0 { p } else { q }
}

// The numbers of a mark, of a script or of a list: 20, 21.
pub fn judge_point(side: u32, position: u32, p: u32, q: u32, place: usize) -> Result<(), Refusal>
    ensures { result ≡ mark_judgement p q place (record { side = side; position = position }) }
{
    if 1 < side {
        return Err(Refusal::NoSuchSide(place));
    }
    if letters_on(p, q, side) < position {
        return Err(Refusal::MarkBeyond(place));
    }
    Ok(())
}

// A whole mark: 19, then its numbers.
fn judge_mark(found: Mark, p: u32, q: u32, marks: usize, at: usize) -> Result<Step, Refusal>
    ensures { result ≡ mark_step p q marks at found }
{
    if MOST_MARKS <= marks {
        return Err(Refusal::TooManyMarks(at));
    }
    judge_point(found.side as u32, found.position, p, q, at)?;
    Ok(Step::Keep(found))
}

// A mark whose operands are incomplete: 19, 3.
fn judge_mark_cut_short(marks: usize, at: usize) -> Result<Step, Refusal>
    ensures { result ≡ mark_cut_short_step marks at }
{
    if MOST_MARKS <= marks {
        Err(Refusal::TooManyMarks(at))
    } else {
        Err(Refusal::CutShort(at))
    }
}

// A command after the first, found at the offset `at` with so many matches and marks before it.
pub fn judge(
    command: Command,
    p: u32,
    q: u32,
    count: usize,
    marks: usize,
    at: usize,
) -> Result<Step, Refusal>
    requires { at < 4294967296 }
    ensures { result ≡ step_of p q count marks at command }
{
    match command {
        Command::Missing => Err(Refusal::CutShort(at)),
        Command::Unknown => Err(Refusal::UnknownCommand(at)),
        Command::Lengths { p: _, q: _ } => Err(Refusal::SecondLengths(at)),
        Command::LengthsCutShort => Err(Refusal::SecondLengths(at)),
        Command::Pairing(found) => judge_match(found, p, q, count, at),
        Command::MatchCutShort => judge_cut_short(count, at),
        Command::Marking(found) => judge_mark(found, p, q, marks, at),
        Command::MarkCutShort => judge_mark_cut_short(marks, at),
        Command::End => Ok(Step::Finish),
        Command::EndThenMore => Err(Refusal::Tail(at + 1)),
    }
}
