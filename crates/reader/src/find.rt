// One match of a script, by its number.
ghost use Rattle.std.specs.Prelude.{◌≡◌, ◌≤◌, ◌<◌, length, Ok};
ghost use Rattle.script.specs.Reading.{read_script, verdict_of};
ghost use Rattle.script.specs.Columns.{matches_read};
ghost use Rattle.script.specs.Finding.{finding_of};
ghost use Rattle.script.specs.Demands.{finding_answer, FindingDemand};
ghost use Rattle.reader.specs.Walking.{Admits, numbered_match};

use crate::read;
use crate::walk::{match_at, next_at};
use script::command::{LENGTHS_WIDTH, MARK_WIDTH, MATCH_WIDTH, Match};
use script::step::Step;
use script::{Admitted, Refusal};

// The match of this number, where there is one, among matches and marks: those before it are passed.
fn walk_to(script: &[u8], number: usize) -> Match
    requires admits { Admits script.now }
    requires number_nonzero { (0 < number) × (number ≤ length (matches_read (read_script script.now))) }
    ensures { result ≡ numbered_match script.now number }
{
    let mut count: usize = 0;
    let mut at: usize = LENGTHS_WIDTH;
    // Not a `for`: each command tells where the next one stands.
    loop {
        match next_at(script, at) {
            // The script has so many matches, so that it does not end before.
            Step::Finish => unreachable!(),
            Step::Take(found) => {
                count += 1;
                if count == number {
                    return found;
                }
                at += MATCH_WIDTH;
            }
            Step::Keep(_) => at += MARK_WIDTH,
        }
    }
}

// The same of an admitted script with so many matches and marks: without a mark the match stands at a fixed offset.
fn find_in(script: &[u8], admitted: Admitted, number: u32) -> Result<Match, Refusal>
    requires { Ok admitted ≡ verdict_of (read_script script.now) }
    ensures { result ≡ finding_of (read_script script.now) number }
{
    if number == 0 || admitted.count < number as usize {
        return Err(Refusal::NoSuchMatch);
    }
    let number = number as usize;
    if admitted.marks == 0 {
        Ok(match_at(script, LENGTHS_WIDTH + MATCH_WIDTH * (number - 1)))
    } else {
        Ok(walk_to(script, number))
    }
}

// The match of this number, counted from 1; refused as the script is, or with 13.
pub fn find_match(script: &[u8], number: u32) -> Result<Match, Refusal>
    ensures value { result ≡ finding_of (read_script script.now) number }
    ensures finding_demand { FindingDemand script.now number (finding_answer result) }
{
    let admitted = read(script)?;
    find_in(script, admitted, number)
}
