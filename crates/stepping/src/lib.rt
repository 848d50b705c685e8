// The A step and the B step, which call each other on the newly found cuts. Sides have sets of their own, one for each
// track, so that a match of a track with itself carries from one set to another.
#![tactic(auto)]

ghost use Rattle.refinement.specs.declared.Side.{Side};
ghost use Rattle.match_columns.specs.Held.{columns_in};
ghost use Rattle.stepping.specs.Steps.{Given, Opened, Goes};

use carrying_group::TooMany;
use grouped_matches::GroupedMatches;
use shelving::any_found;
use taking::take_step;

// The hits so far: pairs of a cut that was taken and a match that spans it, by the side that it was taken from.
#[derive(Drop)]
pub struct Counts {
    pub over_a: usize,
    pub over_b: usize,
    pub along_a: usize,
    pub along_b: usize,
}

// Nothing new is left; or the budget of calls is used up, and the step named is next.
#[derive(Drop)]
pub enum Closing {
    Done,
    MoreA(Counts),
    MoreB(Counts),
}

// SCOPE, "Least cuts": the new cuts on A are carried to B by every match that spans them. The budget bounds the stack.
#[cycle(a_step_b_step)]
pub fn a_step(
    grouped: &GroupedMatches<'_>,
    index_a: &[u32],
    index_b: &[u32],
    work: &mut [u32],
    book_a: &mut [usize],
    book_b: &mut [usize],
    counts: Counts,
    capacity: usize,
    budget: u32,
) -> Result<Closing, TooMany>
    requires given { Given (columns_in grouped.now.matches) grouped.now.straight.now index_a.now index_b.now
        grouped.now.groups.now grouped.now.count grouped.now.sets }
    requires opened { Opened (columns_in grouped.now.matches) grouped.now.groups.now grouped.now.count
        grouped.now.sets capacity work.old book_a.old book_b.old counts Side.A }
    ensures { Goes (columns_in grouped.now.matches) grouped.now.groups.now grouped.now.count grouped.now.sets capacity
        work.old book_a.old book_b.old counts Side.A work.new book_a.new book_b.new result }
{
    let taken = take_step(
        grouped,
        index_a,
        index_b,
        book_a,
        work,
        book_b,
        1,
        2,
        0,
        2 * capacity,
        2 * capacity,
        4 * capacity,
        counts.over_a,
        counts.along_a,
        capacity + grouped.matches.reversed.len(),
        false,
    )?;
    let next = Counts {
        over_a: taken.over,
        along_a: taken.along,
        ..counts
    };
    if !any_found(book_b, grouped.sets) {
        return Ok(Closing::Done);
    }
    if budget == 0 {
        return Ok(Closing::MoreB(next));
    }
    b_step(
        grouped,
        index_a,
        index_b,
        work,
        book_a,
        book_b,
        next,
        capacity,
        budget - 1,
    )
}

// The new cuts on B are carried to A in the same way, until neither side gains one. The ends on A are cuts from the
// start.
#[cycle(a_step_b_step)]
pub fn b_step(
    grouped: &GroupedMatches<'_>,
    index_a: &[u32],
    index_b: &[u32],
    work: &mut [u32],
    book_a: &mut [usize],
    book_b: &mut [usize],
    counts: Counts,
    capacity: usize,
    budget: u32,
) -> Result<Closing, TooMany>
    requires given { Given (columns_in grouped.now.matches) grouped.now.straight.now index_a.now index_b.now
        grouped.now.groups.now grouped.now.count grouped.now.sets }
    requires opened { Opened (columns_in grouped.now.matches) grouped.now.groups.now grouped.now.count
        grouped.now.sets capacity work.old book_a.old book_b.old counts Side.B }
    ensures { Goes (columns_in grouped.now.matches) grouped.now.groups.now grouped.now.count grouped.now.sets capacity
        work.old book_a.old book_b.old counts Side.B work.new book_a.new book_b.new result }
{
    let taken = take_step(
        &grouped.turned(),
        index_b,
        index_a,
        book_b,
        work,
        book_a,
        2,
        1,
        2 * capacity,
        4 * capacity,
        0,
        2 * capacity,
        counts.over_b,
        counts.along_b,
        capacity + grouped.matches.reversed.len(),
        true,
    )?;
    let next = Counts {
        over_b: taken.over,
        along_b: taken.along,
        ..counts
    };
    if !any_found(book_a, grouped.sets) {
        return Ok(Closing::Done);
    }
    if budget == 0 {
        return Ok(Closing::MoreA(next));
    }
    a_step(
        grouped,
        index_a,
        index_b,
        work,
        book_a,
        book_b,
        next,
        capacity,
        budget - 1,
    )
}
