// The first cuts of the closure: the ends of the matches on A, and the marks that a match spans.
#![tactic(auto)]

ghost use Rattle.std.specs.Prelude.{◌≡◌, ◌+◌, ◌*◌, ◌≤◌, ◌<◌, length, get_or};
ghost use Rattle.runs.specs.Runs.{Answers};
ghost use Rattle.cut_set.specs.Store.{Good};
ghost use Rattle.shelf.specs.Shelf.{Shelf};
ghost use Rattle.shelf.specs.Filling.{Filling, FillingHere};
ghost use Rattle.seeding.specs.Sown.{group_at, SideGroups, EndIn, SpannedHere, GroupSpans, SpannedIn};
ghost use Rattle.seeding.specs.Sown.{MarkAt, MarkIn};
ghost use Rattle.seeding.specs.Wanting.{Naming, Wanted};
ghost use Rattle.seeding.specs.Seeds.{EndAt, EndOf, Seeding};

use cut_set::{Added, CutSet};
use near_matches::next_near;
use shelf::{load, save};
use sliding::make_room;

// Adds the two A ends of every match. Those of B are found by carrying them.
fn seed(left_a: &[u32], right_a: &[u32], work: &mut [u32], set: CutSet) -> Added
    requires left_a_len { length left_a.now ≡ length right_a.now }
    requires good { Good work.old set }
    ensures { Seeding (EndOf left_a.now right_a.now (length left_a.now))
        work.old set work.new result }
{
    let mut a = set;
    for k in 0..left_a.len() {
        match seed_match(work, a, left_a[k], right_a[k]) {
            Added::Held(s) => a = s,
            Added::Full(s) => return Added::Full(s),
        }
    }
    Added::Held(a)
}

fn seed_match(work: &mut [u32], set: CutSet, left: u32, right: u32) -> Added
    requires { Good work.old set }
    ensures { Seeding (EndAt left right) work.old set work.new result }
{
    match cut_set::add(work, set, left) {
        Added::Held(s) => cut_set::add(work, s, right),
        Added::Full(s) => Added::Full(s),
    }
}

// Adds the ends of the matches to the set number j of a shelf, where that stands. Returns whether there was room.
fn sow_here(
    lefts: &[u32],
    rights: &[u32],
    work: &mut [u32],
    book: &mut [usize],
    sets: usize,
    lo: usize,
    hi: usize,
    j: usize,
) -> bool
    requires lefts_len { length lefts.now ≡ length rights.now }
    requires shelf { Shelf work.old book.old sets lo hi }
    requires j_lt_sets { j < sets }
    ensures { FillingHere (EndOf lefts.now rights.now (length lefts.now)) sets lo hi j
        work.old book.old work.new book.new result }
{
    match seed(lefts, rights, work, load(book, j)) {
        Added::Held(s) => {
            save(book, j, s);
            true
        }
        Added::Full(s) => {
            save(book, j, s);
            false
        }
    }
}

// Adds the ends of the matches to the set number j. Where that is full, sets slide, and they are added once more: what
// is there already is a member again.
fn sow_group(
    lefts: &[u32],
    rights: &[u32],
    work: &mut [u32],
    book: &mut [usize],
    sets: usize,
    lo: usize,
    hi: usize,
    j: usize,
) -> bool
    requires lefts_len { length lefts.now ≡ length rights.now }
    requires shelf { Shelf work.old book.old sets lo hi }
    requires j_lt_sets { j < sets }
    ensures { Filling (λ i y. (i ≡ j) × EndOf lefts.now rights.now (length lefts.now) y)
        sets lo hi work.old book.old work.new book.new result }
{
    loop {
        if sow_here(lefts, rights, work, book, sets, lo, hi, j) {
            return true;
        }
        if !make_room(work, book, sets, lo, hi, j) {
            return false;
        }
    }
}

// The matches of a group are those from index start up to end. They have this track on the side that was asked for.
#[derive(Drop)]
struct Group {
    start: usize,
    end: usize,
    track: usize,
}

// The group g. Its number `at` tells the track: 1 for the first side, 2 for the second.
fn read_group(groups: &[usize], g: usize, at: usize) -> Group
    requires g_in_bounds { 3 * g + 3 < length groups.now }
    requires at_bound { at ≤ 2 }
    ensures { result ≡ group_at groups.now at g }
{
    let from = 3 * g;
    Group {
        start: groups[from],
        end: groups[from + 3],
        track: groups[from + at],
    }
}

// Adds the ends of the matches on one side to the sets of their tracks, group by group: number `at` of a group tells
// the track. Returns whether there was room.
pub fn sow_groups(
    lefts: &[u32],
    rights: &[u32],
    groups: &[usize],
    work: &mut [u32],
    book: &mut [usize],
    count: usize,
    at: usize,
    sets: usize,
    lo: usize,
    hi: usize,
) -> bool
    requires side_groups { SideGroups lefts.now rights.now groups.now count at sets }
    requires shelf { Shelf work.old book.old sets lo hi }
    ensures { Filling
        (EndIn lefts.now rights.now groups.now count at (length lefts.now))
        sets lo hi work.old book.old work.new book.new result }
{
    for g in 0..count {
        let group = read_group(groups, g, at);
        let start = group.start;
        let end = group.end;
        if !sow_group(
            &lefts[start..end],
            &rights[start..end],
            work,
            book,
            sets,
            lo,
            hi,
            group.track,
        ) {
            return false;
        }
    }
    true
}

// Sets the flags of the tracks that the groups have on one side.
pub fn want(groups: &[usize], count: usize, at: usize, wanted: &mut [bool])
    requires { Naming groups.now count at (length wanted.old) }
    ensures { Wanted groups.now at count wanted.new }
{
    for g in 0..count {
        let track = read_group(groups, g, at).track;
        wanted[track] = true;
    }
}

// Whether one of the matches spans x.
fn any_spans(lefts: &[u32], rights: &[u32], x: u32) -> bool
    requires { length lefts.now ≡ length rights.now }
    ensures { Answers (SpannedHere lefts.now rights.now x) result }
{
    // Not a `for`: the place goes on by what the search finds.
    let mut k = next_near(lefts, rights, 0, x, x);
    while k < lefts.len() {
        if (lefts[k] <= x) & (x <= rights[k]) {
            return true;
        }
        k = next_near(lefts, rights, k + 1, x, x);
    }
    false
}

// Whether a match of the group g spans x, and they have the track j.
fn group_spans(
    lefts: &[u32],
    rights: &[u32],
    groups: &[usize],
    count: usize,
    at: usize,
    sets: usize,
    g: usize,
    j: usize,
    x: u32,
) -> bool
    requires side_groups { SideGroups lefts.now rights.now groups.now count at sets }
    requires g_lt_count { g < count }
    ensures { Answers (GroupSpans lefts.now rights.now groups.now at g j x) result }
{
    let group = read_group(groups, g, at);
    if group.track != j {
        return false;
    }
    let start = group.start;
    let end = group.end;
    any_spans(&lefts[start..end], &rights[start..end], x)
}

// Whether a match with the track j on one side spans x there.
fn spanned(
    lefts: &[u32],
    rights: &[u32],
    groups: &[usize],
    count: usize,
    at: usize,
    sets: usize,
    j: usize,
    x: u32,
) -> bool
    requires { SideGroups lefts.now rights.now groups.now count at sets }
    ensures { Answers
        (SpannedIn lefts.now rights.now groups.now count at
        (length lefts.now) j x)
        result }
{
    for g in 0..count {
        if group_spans(lefts, rights, groups, count, at, sets, g, j, x) {
            return true;
        }
    }
    false
}

// Adds the mark number q to the set number j, which is that of its track, if a match spans it there. It is sown as the
// ends of a match without letters.
fn plant_mark(
    lefts: &[u32],
    rights: &[u32],
    groups: &[usize],
    mark_positions: &[u32],
    work: &mut [u32],
    book: &mut [usize],
    count: usize,
    at: usize,
    sets: usize,
    lo: usize,
    hi: usize,
    q: usize,
    j: usize,
) -> bool
    requires side_groups { SideGroups lefts.now rights.now groups.now count at sets }
    requires q_in_bounds { q < length mark_positions.now }
    requires shelf { Shelf work.old book.old sets lo hi }
    ensures { Filling
        (MarkAt lefts.now rights.now groups.now count at j
        (get_or mark_positions.now q 0))
        sets lo hi work.old book.old work.new book.new result }
{
    if !spanned(lefts, rights, groups, count, at, sets, j, mark_positions[q]) {
        return true;
    }
    sow_group(
        &mark_positions[q..q + 1],
        &mark_positions[q..q + 1],
        work,
        book,
        sets,
        lo,
        hi,
        j,
    )
}

// Adds each mark that a match of its track spans on one side to the set of that track. Returns whether there was room.
pub fn plant(
    lefts: &[u32],
    rights: &[u32],
    groups: &[usize],
    mark_tracks: &[u8],
    mark_positions: &[u32],
    work: &mut [u32],
    book: &mut [usize],
    count: usize,
    at: usize,
    sets: usize,
    lo: usize,
    hi: usize,
) -> bool
    requires side_groups { SideGroups lefts.now rights.now groups.now count at sets }
    requires mark_positions_len { length mark_positions.now ≡ length mark_tracks.now }
    requires shelf { Shelf work.old book.old sets lo hi }
    ensures { Filling
        (MarkIn lefts.now rights.now groups.now count at mark_tracks.now
        mark_positions.now (length mark_tracks.now))
        sets lo hi work.old book.old work.new book.new result }
{
    for q in 0..mark_tracks.len() {
        let j = mark_tracks[q] as usize;
        if !plant_mark(
            lefts,
            rights,
            groups,
            mark_positions,
            work,
            book,
            count,
            at,
            sets,
            lo,
            hi,
            q,
            j,
        ) {
            return false;
        }
    }
    true
}
