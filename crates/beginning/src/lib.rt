// Where the closure begins: empty sets, the first cuts in them, and the first steps.
#![tactic(auto)]

ghost use Rattle.std.specs.Prelude.{◌≡◌, ◌*◌, ◌≤◌, length};
ghost use Rattle.match_columns.specs.Held.{columns_in};
ghost use Rattle.shelving.specs.AllSets.{Layable, LaidOut};
ghost use Rattle.tracks.specs.Tracks.{marks_of};
ghost use Rattle.tracks.specs.Groups.{grouped};
ghost use Rattle.seeding.specs.Wanting.{Naming};
ghost use Rattle.driving.specs.Driving.{Driving};
ghost use Rattle.beginning.specs.Beginning.{Lent, Sowing};

use carrying_group::TooMany;
use driving::BUDGET;
use grouped_matches::GroupedMatches;
use match_columns::MatchColumns;
use seeding::{plant, sow_groups, want};
use shelving::{gather_sets, lay_out};
use stepping::{Closing, Counts, a_step};

// Empty sets of one side: the tracks that the groups have there share the places [lo, hi).
fn lay_wanted(
    groups: &[usize],
    work: &[u32],
    book: &mut [usize],
    wanted: &mut [bool],
    count: usize,
    at: usize,
    sets: usize,
    lo: usize,
    hi: usize,
)
    requires naming { Naming groups.now count at (length wanted.old) }
    requires layable { Layable work.now book.old sets lo hi }
    requires wanted_len { length wanted.old ≡ sets }
    ensures { LaidOut sets lo hi work.now book.new }
{
    want(groups, count, at, wanted);
    lay_out(work, book, sets, lo, hi, wanted);
}

// The same with flags of its own: there are at most 16 tracks.
fn lay_side(
    groups: &[usize],
    work: &[u32],
    book: &mut [usize],
    count: usize,
    at: usize,
    sets: usize,
    lo: usize,
    hi: usize,
)
    requires naming { Naming groups.now count at sets }
    requires layable { Layable work.now book.old sets lo hi }
    requires sets_bound { sets ≤ 16 }
    ensures { LaidOut sets lo hi work.now book.new }
{
    let mut wanted = [false; 16];
    lay_wanted(
        groups,
        work,
        book,
        &mut wanted[..sets],
        count,
        at,
        sets,
        lo,
        hi,
    );
}

// The first cuts: the ends on A, and the marks on either side. The cuts of A have the first half of 4 * capacity places
// of the work buffer; those of B have the second half.
fn sow_all(
    matches: &MatchColumns<'_>,
    groups: &[usize],
    mark_tracks: &[u8],
    mark_positions: &[u32],
    work: &mut [u32],
    book_a: &mut [usize],
    book_b: &mut [usize],
    count: usize,
    sets: usize,
    capacity: usize,
) -> bool
    requires lent { Lent (columns_in matches.now) groups.now mark_tracks.now mark_positions.now count sets }
    requires laid_out { LaidOut sets 0 (2 * capacity) work.old book_a.old }
    requires laid_out_2 { LaidOut sets (2 * capacity) (4 * capacity) work.old book_b.old }
    ensures { Sowing (grouped (columns_in matches.now) groups.now count (marks_of mark_tracks.now mark_positions.now))
        sets capacity work.new book_a.new book_b.new result }
{
    let half = 2 * capacity;
    let whole = 4 * capacity;
    if !sow_groups(
        matches.lefts,
        matches.rights,
        groups,
        work,
        book_a,
        count,
        1,
        sets,
        0,
        half,
    ) {
        return false;
    }
    if !plant(
        matches.lefts,
        matches.rights,
        groups,
        mark_tracks,
        mark_positions,
        work,
        book_a,
        count,
        1,
        sets,
        0,
        half,
    ) {
        return false;
    }
    if !plant(
        matches.other_lefts,
        matches.other_rights,
        groups,
        mark_tracks,
        mark_positions,
        work,
        book_b,
        count,
        2,
        sets,
        half,
        whole,
    ) {
        return false;
    }
    gather_sets(work, book_a, sets, 0, half);
    gather_sets(work, book_b, sets, half, whole);
    true
}

// Begins: the first cuts are sown, and the first steps go without an index.
pub fn begin(
    grouped: &GroupedMatches<'_>,
    mark_tracks: &[u8],
    mark_positions: &[u32],
    work: &mut [u32],
    book_a: &mut [usize],
    book_b: &mut [usize],
    capacity: usize,
) -> Result<Closing, TooMany>
    requires lent { Lent (columns_in grouped.now.matches) grouped.now.groups.now mark_tracks.now mark_positions.now
        grouped.now.count grouped.now.sets }
    requires sets_bound { grouped.now.sets ≤ 16 }
    requires book_a_len { length book_a.old ≡ 8 * grouped.now.sets }
    requires book_b_len { length book_b.old ≡ 8 * grouped.now.sets }
    requires capacity_in_bounds { 4 * capacity ≤ length work.old }
    ensures { Driving (columns_in grouped.now.matches) grouped.now.groups.now grouped.now.count (marks_of
        mark_tracks.now mark_positions.now) grouped.now.sets capacity work.new book_a.new book_b.new result }
{
    let GroupedMatches {
        groups,
        count,
        sets,
        ..
    } = *grouped;
    lay_side(groups, work, book_a, count, 1, sets, 0, 2 * capacity);
    lay_side(
        groups,
        work,
        book_b,
        count,
        2,
        sets,
        2 * capacity,
        4 * capacity,
    );
    if !sow_all(
        &grouped.matches,
        groups,
        mark_tracks,
        mark_positions,
        work,
        book_a,
        book_b,
        count,
        sets,
        capacity,
    ) {
        return Err(TooMany);
    }
    let none = Counts {
        over_a: 0,
        over_b: 0,
        along_a: 0,
        along_b: 0,
    };
    a_step(
        grouped,
        &[],
        &[],
        work,
        book_a,
        book_b,
        none,
        capacity,
        BUDGET,
    )
}
