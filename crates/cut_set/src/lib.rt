// A set of 32-bit positions in the part [base, limit) of a lent slice, which holds nothing but its members: every place
// may be needed for one. Finished members are told from newly found ones.
//
// A number is added by a store behind the others, whatever it is. Gathering sorts what was added since, drops what is a
// member already, and makes one rising run of all newly found members. The finished ones are three rising runs: a short
// one takes what is finished, goes into the middle one when it is full, and that into the long one when it is long, so
// that n additions in any order move far fewer numbers than one run would. Finishing is the crate `settling`.
//
// Unused places may hold notes, a bit for each member (the crate `noting`): a number that is not noted is new, and need
// not be searched for. They give way where the places are needed.
#![tactic(auto)]

ghost use Rattle.std.specs.Prelude.{◌≡◌, true, ◌<◌, ◌≤◌};
ghost use Rattle.runs.specs.Runs.{In, Answers, Bound};
ghost use Rattle.cut_set.specs.Store.{Part, Good, FoundRun, NothingAdded, Member, Emptied, Gathered, Stored};
ghost use Rattle.cut_set.specs.Store.{Adding, Standing, SortedApart, NewOnes, RoomForOne, GatheredBare};

use merging_wide::merge_wide;
use noting::{noted, remember};
use sifting::{counted, without};
use sorting::sort;

// Where the runs of a set end. Finished members: from base to long the long run, to mid the middle one, to done the
// short one. Newly found members: to fresh a run, to used what was added since, in any order. To top: unused places; from
// there to limit notes of the members, if top is less.
#[derive(Clone, Copy)]
pub struct CutSet {
    pub base: usize,
    pub long: usize,
    pub mid: usize,
    pub done: usize,
    pub fresh: usize,
    pub used: usize,
    pub top: usize,
    pub limit: usize,
}

// What adding a number answers: the set with it, or the set as it stands where no place is left for it, gathered and
// without notes. Not a `Result`: in both cases the set is handed on.
#[derive(Drop)]
pub enum Added {
    Held(CutSet),
    Full(CutSet),
}

// A set with no member.
pub fn empty(a: &[u32], base: usize, limit: usize) -> CutSet
    requires { Part a.now base limit }
    ensures { Emptied a.now base limit result }
{
    CutSet {
        base,
        long: base,
        mid: base,
        done: base,
        fresh: base,
        used: base,
        top: limit,
        limit,
    }
}

// Whether x stands in one of the runs of a set. What is looked for was mostly found a short while ago.
fn among(a: &[u32], s: CutSet, x: u32) -> bool
    requires { Standing a.now s }
    ensures { Answers (In a.now s.base s.fresh x) result }
{
    runs::has(a, s.mid, s.done, x)
        || runs::has(a, s.long, s.mid, x)
        || runs::has(a, s.base, s.long, x)
        || runs::has(a, s.done, s.fresh, x)
}

// Whether x is a member of a set to which nothing was added since it was gathered.
pub fn member(a: &[u32], s: CutSet, x: u32) -> bool
    requires good { Good a.now s }
    requires nothing_added { NothingAdded s }
    ensures { Answers (Member a.now s x) result }
{
    among(a, s, x)
}

// Whether x stands in one of the runs of a set that has notes.
fn known(a: &[u32], s: CutSet, x: u32) -> bool
    requires standing { Standing a.now s }
    requires top_lt_limit { s.top < s.limit }
    ensures { Answers (In a.now s.base s.fresh x) result }
{
    noted(a, s.top, s.limit, x) && among(a, s, x)
}

// Takes the members out of the run [fresh, end) number by number, where there are notes.
fn sift_noted(a: &mut [u32], s: CutSet, end: usize) -> usize
    requires sorted_apart { SortedApart a.old s end }
    requires top_lt_limit { s.top < s.limit }
    ensures { NewOnes a.old s end a.new result }
{
    let mut kept = s.fresh;
    for k in s.fresh..end {
        let x = a[k];
        let old = known(a, s, x);
        a[kept] = x;
        kept += counted(old);
    }
    kept
}

// So few numbers are looked for one by one.
const FEW: usize = 64;

// The same run by run, the short one of finished members first.
fn sift_runs(a: &mut [u32], s: CutSet, end: usize) -> usize
    requires { SortedApart a.old s end }
    ensures { NewOnes a.old s end a.new result }
{
    let short = without(a, s.mid, s.done, s.fresh, end);
    let middle = without(a, s.long, s.mid, s.fresh, short);
    let long = without(a, s.base, s.long, s.fresh, middle);
    without(a, s.done, s.fresh, s.fresh, long)
}

// Takes the members out of the run [fresh, end), and returns where it ends then.
fn sift(a: &mut [u32], s: CutSet, end: usize) -> usize
    requires { SortedApart a.old s end }
    ensures { NewOnes a.old s end a.new result }
{
    if s.top < s.limit && end - s.fresh <= FEW {
        sift_noted(a, s, end)
    } else {
        sift_runs(a, s, end)
    }
}

// The set with its newly found members in one rising run, the places [done, used).
pub fn gather(a: &mut [u32], s: CutSet) -> CutSet
    requires { Good a.old s }
    ensures { Gathered a.old s a.new result }
{
    if s.fresh == s.used {
        return s;
    }
    let sorted = sort(a, s.fresh, s.used, s.used);
    let end = sift(a, s, sorted);
    merge_wide(a, s.done, s.fresh, end, end, s.top);
    remember(a, s.done, end, s.top, s.limit);
    CutSet {
        fresh: end,
        used: end,
        ..s
    }
}

// The same without notes.
pub fn gather_bare(a: &mut [u32], s: CutSet) -> CutSet
    requires { Good a.old s }
    ensures { GatheredBare a.old s a.new result }
{
    let t = gather(a, s);
    CutSet { top: t.limit, ..t }
}

// Whether there is a place for one number more, with those that sorting it takes. Adding is then a store.
pub fn has_room(s: CutSet) -> bool
    requires fresh_le_used { s.fresh ≤ s.used }
    requires used_le_top { s.used ≤ s.top }
    ensures { result ≡ true → RoomForOne s }
{
    let added = s.used - s.fresh;
    added / 2 + added % 2 < s.top - s.used
}

// The set with x in the first unused place.
pub fn append(a: &mut [u32], s: CutSet, x: u32) -> CutSet
    requires good { Good a.old s }
    requires room_for_one { RoomForOne s }
    ensures { Stored (λ y. y ≡ x) a.old s a.new result }
{
    a[s.used] = x;
    CutSet {
        used: s.used + 1,
        ..s
    }
}

// Adds x where what was added has no room to be sorted with one number more. Then there are no more notes.
fn add_tightly(a: &mut [u32], s: CutSet, x: u32) -> Added
    requires { Good a.old s }
    ensures { Adding a.old s x a.new result }
{
    let t = gather_bare(a, s);
    if t.used < t.limit {
        Added::Held(append(a, t, x))
    } else if member(a, t, x) {
        Added::Held(t)
    } else {
        Added::Full(t)
    }
}

// Adds x as newly found, unless it is a member.
pub fn add(a: &mut [u32], s: CutSet, x: u32) -> Added
    requires { Good a.old s }
    ensures { Adding a.old s x a.new result }
{
    if has_room(s) {
        Added::Held(append(a, s, x))
    } else {
        add_tightly(a, s, x)
    }
}

// The place of the first newly found member that is at least x. From there to used they rise.
pub fn first_found(a: &[u32], s: CutSet, x: u32) -> usize
    requires good { Good a.now s }
    requires found_run { FoundRun a.now s }
    ensures { Bound a.now s.done s.used x result }
{
    runs::lower_bound(a, s.done, s.used, x)
}
