// Taking the newly found cuts of all sets of one side to the sets of the other, group by group: over the matches, which
// carry them, or along them, as they are.
#![tactic(auto)]

ghost use Rattle.std.specs.Prelude.{◌≡◌, true, suc, ◌+◌, ◌*◌, ◌≤◌, ◌<◌, length};
ghost use Rattle.match_columns.specs.Held.{columns_in};
ghost use Rattle.carrying_cuts.specs.Worker.{EndsKnown};
ghost use Rattle.shelf.specs.Shelf.{set_at, Shelf};
ghost use Rattle.carrying_group.specs.Group.{Clear, Grouping};
ghost use Rattle.tracks.specs.Groups.{start_at, track_at, Groups, lane_by, part_of};
ghost use Rattle.carrying_lane.specs.Parts.{OneOfTwo, ClearBook, place_in, UsableParts, EndsKept, Laning};
ghost use Rattle.carrying_lane.specs.Range.{GroupAt, Ready, Ranged};

use carrying_group::{TooMany, carry_group};
use cut_set::CutSet;
use indexing::index_room;
use match_columns::MatchColumns;
use reading_cuts::none_found;
use shelf::load;

// Where the part of an index of so many places begins that is for the matches from number k on.
fn index_place(places: usize, k: usize) -> usize
    requires { k ≤ 4294967296 }
    ensures { result ≡ place_in places k }
{
    if 0 < places { index_room(k) } else { 0 }
}

// The indices of a group's first match and of the one behind its last, and the tracks that it takes from and to.
#[derive(Drop)]
struct Group {
    start: usize,
    end: usize,
    from: usize,
    to: usize,
}

// The group g.
fn group_at(groups: &[usize], g: usize, from_at: usize, to_at: usize) -> Group
    requires g_in_bounds { 3 * g + 3 < length groups.now }
    requires from_at_bound { from_at ≤ 2 }
    requires to_at_bound { to_at ≤ 2 }
    ensures { GroupAt groups.now g from_at to_at result }
{
    let at = 3 * g;
    Group {
        start: groups[at],
        end: groups[at + 3],
        from: groups[at + from_at],
        to: groups[at + to_at],
    }
}

// Takes the newly found cuts of one set over the matches of a group, whose index stands in the places [low, high).
fn carry_range(
    matches: &MatchColumns<'_>,
    index: &[u32],
    work: &mut [u32],
    book: &mut [usize],
    from: CutSet,
    group: Group,
    low: usize,
    high: usize,
    sets: usize,
    lo: usize,
    hi: usize,
    hits: usize,
    most: usize,
    ended: bool,
) -> Result<usize, TooMany>
    requires ranged { Ranged (columns_in matches.now) index.now group low high }
    requires shelf { Shelf work.old book.old sets lo hi }
    requires clear { Clear work.old from lo hi }
    requires to_lt_sets { group.to < sets }
    requires hits_le_most { hits ≤ most }
    requires ends_known { ended ≡ true → EndsKnown (part_of group.start group.end (columns_in matches.now)) work.old
        (set_at book.old group.to) }
    ensures { Grouping (part_of group.start group.end (columns_in matches.now)) from sets lo hi group.to work.old
        book.old hits most work.new book.new result }
{
    carry_group(
        &matches.part(group.start, group.end),
        &index[low..high],
        work,
        book,
        from,
        sets,
        lo,
        hi,
        group.to,
        hits,
        most,
        ended,
    )
}

// Takes the newly found cuts of one set over the matches of group g.
fn carry_part(
    matches: &MatchColumns<'_>,
    index: &[u32],
    groups: &[usize],
    from_book: &[usize],
    work: &mut [u32],
    book: &mut [usize],
    count: usize,
    g: usize,
    from_at: usize,
    to_at: usize,
    sets: usize,
    lo: usize,
    hi: usize,
    hits: usize,
    most: usize,
    ended: bool,
) -> Result<usize, TooMany>
    requires ready { Ready (columns_in matches.now) index.now groups.now from_book.now count from_at to_at sets lo hi
        work.old book.old }
    requires g_lt_count { g < count }
    requires hits_le_most { hits ≤ most }
    requires ends_kept { ended ≡ true → EndsKept (lane_by (columns_in matches.now) groups.now count from_at to_at)
        work.old book.old }
    ensures { Grouping (part_of (start_at groups.now g) (start_at groups.now (suc g)) (columns_in matches.now))
        (set_at from_book.now (track_at groups.now from_at g)) sets lo hi (track_at groups.now to_at g) work.old
        book.old hits most work.new book.new result }
{
    let group = group_at(groups, g, from_at, to_at);
    let from = load(from_book, group.from);
    if none_found(from) {
        return Ok(hits);
    }
    let low = index_place(index.len(), group.start);
    let high = index_place(index.len(), group.end);
    carry_range(
        matches, index, work, book, from, group, low, high, sets, lo, hi, hits, most, ended,
    )
}

// Takes the newly found cuts of the sets of `from_book` along the lane, into the sets of the shelf in the places
// [lo, hi).
pub fn carry_lane(
    matches: &MatchColumns<'_>,
    index: &[u32],
    groups: &[usize],
    from_book: &[usize],
    work: &mut [u32],
    book: &mut [usize],
    count: usize,
    from_at: usize,
    to_at: usize,
    sets: usize,
    lo: usize,
    hi: usize,
    hits: usize,
    most: usize,
    ended: bool,
) -> Result<usize, TooMany>
    requires reversed_len_bound { length matches.now.reversed.now ≤ 4294967296 }
    requires usable_parts { UsableParts index.now groups.now count matches.now.lefts.now matches.now.rights.now }
    requires groups { Groups groups.now count (length matches.now.reversed.now) sets }
    requires clear_book { ClearBook work.old from_book.now sets lo hi }
    requires shelf { Shelf work.old book.old sets lo hi }
    requires one_of_two { OneOfTwo from_at }
    requires one_of_two_2 { OneOfTwo to_at }
    requires hits_le_most { hits ≤ most }
    requires ends_kept { ended ≡ true → EndsKept (lane_by (columns_in matches.now) groups.now count from_at to_at)
        work.old book.old }
    ensures { Laning (lane_by (columns_in matches.now) groups.now count from_at to_at) from_book.now sets lo hi
        work.old book.old hits most work.new book.new result }
{
    let mut total = hits;
    for g in 0..count {
        total = carry_part(
            matches, index, groups, from_book, work, book, count, g, from_at, to_at, sets, lo, hi,
            total, most, ended,
        )?;
    }
    Ok(total)
}
