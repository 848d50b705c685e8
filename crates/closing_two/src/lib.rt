// The closure of the first edition: two tracks, and every match goes from the first to the second. A mark's side is its
// track.
#![tactic(auto)]

ghost use Rattle.std.specs.Prelude.{◌≡◌, false, ◌*◌, ◌≤◌, length, replicate};
ghost use Rattle.match_columns.specs.Held.{columns_in};
ghost use Rattle.refining.specs.Refining.{held_in};
ghost use Rattle.tracks.specs.Tracks.{marks_of};
ghost use Rattle.closing_two.specs.FirstEdition.{two_groups, Closure};

use carrying_group::TooMany;
use closing::close;
use cut_set::CutSet;
use grouped_matches::GroupedMatches;
use match_columns::MatchColumns;
use shelf::load;

// The cuts of A with what the closure needs lent: the one group, and books of two sets a side.
fn close_lent(
    matches: &MatchColumns<'_>,
    straight: &[bool],
    groups: &[usize],
    mark_sides: &[u8],
    mark_positions: &[u32],
    index_a: &mut [u32],
    index_b: &mut [u32],
    work: &mut [u32],
    book_a: &mut [usize],
    book_b: &mut [usize],
    capacity: usize,
) -> Result<CutSet, TooMany>
    requires capacity_in_bounds { 4 * capacity ≤ length work.old }
    requires reversed_len_bound { length matches.now.reversed.now ≤ 4294967296 }
    requires straight_value { straight.now ≡ replicate (length matches.now.reversed.now) false }
    requires groups_value { groups.now ≡ two_groups (length matches.now.reversed.now) }
    requires mark_sides_len { length mark_sides.now ≡ length mark_positions.now }
    requires book_a_len { length book_a.old ≡ 16 }
    requires book_b_len { length book_b.old ≡ 16 }
    ensures { Closure (held_in (columns_in matches.now) (marks_of mark_sides.now mark_positions.now)) capacity
        work.new result }
{
    let grouped = GroupedMatches {
        matches: *matches,
        straight,
        groups,
        count: 1,
        sets: 2,
    };
    close(
        &grouped,
        mark_sides,
        mark_positions,
        index_a,
        index_b,
        work,
        book_a,
        book_b,
        capacity,
    )?;
    Ok(load(book_a, 0))
}

// The cuts of A, in the work buffer; or every resolved refinement has more pieces than the capacity. The marks that some
// match spans are among the cuts.
pub fn close_two(
    matches: &MatchColumns<'_>,
    straight: &[bool],
    mark_sides: &[u8],
    mark_positions: &[u32],
    index_a: &mut [u32],
    index_b: &mut [u32],
    work: &mut [u32],
    capacity: usize,
) -> Result<CutSet, TooMany>
    requires capacity_in_bounds { 4 * capacity ≤ length work.old }
    requires reversed_len_bound { length matches.now.reversed.now ≤ 4294967296 }
    requires straight_value { straight.now ≡ replicate (length matches.now.reversed.now) false }
    requires mark_sides_len { length mark_sides.now ≡ length mark_positions.now }
    ensures { Closure (held_in (columns_in matches.now) (marks_of mark_sides.now mark_positions.now)) capacity
        work.new result }
{
    let groups = [0, 0, 1, matches.reversed.len()];
    let mut book_a = [0usize; 16];
    let mut book_b = [0usize; 16];
    close_lent(
        matches,
        straight,
        &groups,
        mark_sides,
        mark_positions,
        index_a,
        index_b,
        work,
        &mut book_a,
        &mut book_b,
        capacity,
    )
}
