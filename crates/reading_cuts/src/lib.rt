// Reading the members of a set, so that code above need not know where they stand: the newly found ones, once they are
// gathered into one run, and all of them, once they are joined.
#![tactic(auto)]

ghost use Rattle.std.specs.Prelude.{◌≡◌, ◌-◌, ◌≤◌, get_or};
ghost use Rattle.runs.specs.Runs.{Answers};
ghost use Rattle.cut_set.specs.Store.{Good, AllRun, NothingFound, found_end};
ghost use Rattle.reading_cuts.specs.Reading.{SomeFound, FoundPlace, Lowest, Highest, AllPlaces};

use cut_set::CutSet;

// The places [start, end) of a run.
#[derive(Drop)]
pub struct Places {
    pub start: usize,
    pub end: usize,
}

// Whether no member is newly found.
pub fn none_found(s: CutSet) -> bool
    ensures { Answers (NothingFound s) result }
{
    s.done == s.used
}

// How many members are newly found, once they are gathered.
pub fn count_found(s: CutSet) -> usize
    requires { s.done ≤ s.used }
    ensures { result ≡ s.used - s.done }
{
    s.used - s.done
}

// The place of the first newly found member.
pub fn found_start(s: CutSet) -> usize
    ensures { result ≡ s.done }
{
    s.done
}

// The place behind the last newly found member.
pub fn found_end(s: CutSet) -> usize
    ensures { result ≡ found_end s }
{
    s.used
}

// The newly found member at a place.
pub fn found_at(a: &[u32], s: CutSet, at: usize) -> u32
    requires { FoundPlace a.now s at }
    ensures { result ≡ get_or a.now at 0 }
{
    a[at]
}

// The lowest newly found member.
pub fn lowest_found(a: &[u32], s: CutSet) -> u32
    requires { SomeFound a.now s }
    ensures { Lowest a.now s result }
{
    a[s.done]
}

// The highest newly found member.
pub fn highest_found(a: &[u32], s: CutSet) -> u32
    requires { SomeFound a.now s }
    ensures { Highest a.now s result }
{
    a[s.used - 1]
}

// The places of all members of a joined set.
pub fn all_places(a: &[u32], s: CutSet) -> Places
    requires good { Good a.now s }
    requires all_run { AllRun a.now s }
    ensures { AllPlaces a.now s result }
{
    Places {
        start: s.base,
        end: s.used,
    }
}
