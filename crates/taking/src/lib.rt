// One step, told without A and B: the newly found cuts of the sets of one side are taken to the sets of the other, over
// the matches, which carry them, and along those whose track there is the cut's, as they are. Then they are finished.
#![tactic(auto)]

ghost use Rattle.std.specs.Prelude.{◌≡◌, true, length};
ghost use Rattle.match_columns.specs.Held.{columns_in};
ghost use Rattle.tracks.specs.Groups.{lane_by};
ghost use Rattle.carrying_lane.specs.Parts.{UsableParts, EndsKept};
ghost use Rattle.taking.specs.Taking.{lane_to, Able, TakingBoth, Stepping};

use carrying_group::TooMany;
use carrying_lane::carry_lane;
use grouped_matches::GroupedMatches;
use shelving::{finish_sets, gather_sets};

// The hits after a step, over the matches and along them.
#[derive(Clone, Copy)]
pub struct Taken {
    pub over: usize,
    pub along: usize,
}

// Takes the newly found cuts of the sets of `from_book` by both kinds of lanes. `ended`: the ends of all matches are
// members of the sets that they are carried to.
fn take_both(
    grouped: &GroupedMatches<'_>,
    index: &[u32],
    other_index: &[u32],
    from_book: &[usize],
    work: &mut [u32],
    book: &mut [usize],
    from_at: usize,
    to_at: usize,
    from_lo: usize,
    from_hi: usize,
    lo: usize,
    hi: usize,
    over: usize,
    along: usize,
    most: usize,
    ended: bool,
) -> Result<Taken, TooMany>
    requires usable_parts { UsableParts index.now grouped.now.groups.now grouped.now.count
        grouped.now.matches.lefts.now grouped.now.matches.rights.now }
    requires usable_parts_2 { UsableParts other_index.now grouped.now.groups.now grouped.now.count
        grouped.now.matches.other_lefts.now grouped.now.matches.other_rights.now }
    requires able { Able grouped.now.groups.now grouped.now.count (length grouped.now.matches.reversed.now)
        grouped.now.sets from_at to_at from_lo from_hi lo hi work.old from_book.now book.old over along most }
    requires ends_kept { ended ≡ true → EndsKept (lane_by (columns_in grouped.now.matches) grouped.now.groups.now
        grouped.now.count from_at to_at) work.old book.old }
    ensures { TakingBoth (λ w. lane_to w (columns_in grouped.now.matches) grouped.now.groups.now grouped.now.count
        from_at to_at) (length grouped.now.matches.reversed.now) from_book.now grouped.now.sets lo hi work.old
        book.old over along most work.new book.new result }
{
    let over = carry_lane(
        &grouped.matches,
        index,
        grouped.groups,
        from_book,
        work,
        book,
        grouped.count,
        from_at,
        to_at,
        grouped.sets,
        lo,
        hi,
        over,
        most,
        ended,
    )?;
    let along = carry_lane(
        &grouped.matches.along(grouped.straight),
        other_index,
        grouped.groups,
        from_book,
        work,
        book,
        grouped.count,
        to_at,
        to_at,
        grouped.sets,
        lo,
        hi,
        along,
        most,
        false,
    )?;
    Ok(Taken { over, along })
}

// A whole step: what was taken is gathered, and what it was taken from is finished.
pub fn take_step(
    grouped: &GroupedMatches<'_>,
    index: &[u32],
    other_index: &[u32],
    from_book: &mut [usize],
    work: &mut [u32],
    book: &mut [usize],
    from_at: usize,
    to_at: usize,
    from_lo: usize,
    from_hi: usize,
    lo: usize,
    hi: usize,
    over: usize,
    along: usize,
    most: usize,
    ended: bool,
) -> Result<Taken, TooMany>
    requires usable_parts { UsableParts index.now grouped.now.groups.now grouped.now.count
        grouped.now.matches.lefts.now grouped.now.matches.rights.now }
    requires usable_parts_2 { UsableParts other_index.now grouped.now.groups.now grouped.now.count
        grouped.now.matches.other_lefts.now grouped.now.matches.other_rights.now }
    requires able { Able grouped.now.groups.now grouped.now.count (length grouped.now.matches.reversed.now)
        grouped.now.sets from_at to_at from_lo from_hi lo hi work.old from_book.old book.old over along most }
    requires ends_kept { ended ≡ true → EndsKept (lane_by (columns_in grouped.now.matches) grouped.now.groups.now
        grouped.now.count from_at to_at) work.old book.old }
    ensures { Stepping (λ w. lane_to w (columns_in grouped.now.matches) grouped.now.groups.now grouped.now.count
        from_at to_at) (length grouped.now.matches.reversed.now) grouped.now.sets from_lo from_hi lo hi work.old
        from_book.old book.old over along most work.new from_book.new book.new result }
{
    let taken = take_both(
        grouped,
        index,
        other_index,
        from_book,
        work,
        book,
        from_at,
        to_at,
        from_lo,
        from_hi,
        lo,
        hi,
        over,
        along,
        most,
        ended,
    )?;
    gather_sets(work, book, grouped.sets, lo, hi);
    finish_sets(work, from_book, grouped.sets, from_lo, from_hi);
    Ok(taken)
}
