// The closure: steps follow each other until neither side gains a cut.
#![tactic(auto)]

ghost use Rattle.std.specs.Prelude.{List};
ghost use Rattle.refinement.specs.Match.{Place};
ghost use Rattle.match_columns.specs.Held.{columns_in};
ghost use Rattle.tracks.specs.Engine.{books_of};
ghost use Rattle.grouped_matches.specs.Held.{tracked_in};
ghost use Rattle.stepping.specs.Steps.{Given};
ghost use Rattle.driving.specs.Driving.{Driving, Driven, Closure};

use carrying_group::TooMany;
use grouped_matches::GroupedMatches;
use stepping::{Closing, a_step, b_step};

// How many calls of the steps may stand on the stack at once.
pub const BUDGET: u32 = 16;

// Goes on with the step that is due until nothing new is left. Then the sets hold all cuts; else every resolved refinement
// has more pieces than the capacity.
pub fn drive(
    grouped: &GroupedMatches<'_>,
    index_a: &[u32],
    index_b: &[u32],
    work: &mut [u32],
    book_a: &mut [usize],
    book_b: &mut [usize],
    first: Result<Closing, TooMany>,
    capacity: usize,
) -> Result<(), TooMany>
    requires given { Given (columns_in grouped.now.matches) grouped.now.straight.now index_a.now index_b.now
        grouped.now.groups.now grouped.now.count grouped.now.sets }
    requires driven { Driven (columns_in grouped.now.matches) grouped.now.groups.now grouped.now.count
        grouped.now.sets capacity work.old book_a.old book_b.old first }
    ensures { (marks : List Place) → Driving (columns_in grouped.now.matches) grouped.now.groups.now grouped.now.count
        marks grouped.now.sets capacity work.old book_a.old book_b.old first → Closure (tracked_in grouped.now marks)
        grouped.now.sets capacity work.new (books_of book_a.new book_b.new) result }
{
    let mut closing = first?;
    loop {
        closing = match closing {
            Closing::Done => return Ok(()),
            Closing::MoreA(counts) => a_step(
                grouped, index_a, index_b, work, book_a, book_b, counts, capacity, BUDGET,
            )?,
            Closing::MoreB(counts) => b_step(
                grouped, index_a, index_b, work, book_a, book_b, counts, capacity, BUDGET,
            )?,
        };
    }
}
