// The reader of match scripts: from any string of bytes to a verdict, and to the matches and marks of an admitted
// script.
#![tactic(auto)]

pub mod columns;
pub mod find;
pub mod walk;

ghost use Rattle.std.specs.Prelude.{◌≡◌, []};
ghost use Rattle.script.specs.Commands.{lengths_width};
ghost use Rattle.script.specs.Reading.{read_script, verdict_of};
ghost use Rattle.script.specs.Outcomes.{Reach};
ghost use Rattle.script.specs.Demands.{verdict_answer, ReadingDemand};

use commands::read_command;
use judging::{judge, judge_opening};
use script::command::{LENGTHS_WIDTH, MARK_WIDTH, MATCH_WIDTH};
use script::step::{Lengths, Step};
use script::{Admitted, Refusal};

// The commands behind the lengths, one after the other.
fn read_commands(script: &[u8], p: u32, q: u32) -> Result<Admitted, Refusal>
    requires { Reach script.now p q lengths_width [] [] }
    ensures { result ≡ verdict_of (read_script script.now) }
{
    let mut count: usize = 0;
    let mut marks: usize = 0;
    let mut at: usize = LENGTHS_WIDTH;
    // Not a `for`: each command tells where the next one stands.
    loop {
        match judge(read_command(&script[at..]), p, q, count, marks, at)? {
            Step::Finish => return Ok(Admitted { p, q, count, marks }),
            Step::Take(_) => {
                count += 1;
                at += MATCH_WIDTH;
            }
            Step::Keep(_) => {
                marks += 1;
                at += MARK_WIDTH;
            }
        }
    }
}

// The verdict on any string of bytes.
pub fn read(script: &[u8]) -> Result<Admitted, Refusal>
    ensures value { result ≡ verdict_of (read_script script.now) }
    ensures reading_demand { ReadingDemand script.now (verdict_answer result) }
{
    let Lengths { p, q } = judge_opening(read_command(script))?;
    read_commands(script, p, q)
}
