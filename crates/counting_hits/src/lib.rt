// Counting hits, the pairs of a newly found cut and a match that spans it, before any is carried.
#![tactic(auto)]

ghost use Rattle.std.specs.Prelude.{◌≡◌, true, ◌<◌, ◌≤◌, length};
ghost use Rattle.cut_set.specs.Store.{Good, FoundRun, found_in};
ghost use Rattle.carrying_match.specs.OneMatch.{hits_on};
ghost use Rattle.counting_hits.specs.Counting.{MoreHits};

use cut_set::CutSet;

// How many of the newly found cuts, one rising run, a match spans: those from the first that is at least its left end
// to the last before its right end, and the one at its right end.
fn hits_of(work: &[u32], from: CutSet, left: u32, right: u32) -> usize
    requires good { Good work.now from }
    requires found_run { FoundRun work.now from }
    ensures { result ≤ hits_on left right (found_in work.now from) }
{
    let first = cut_set::first_found(work, from, left);
    let last = cut_set::first_found(work, from, right);
    if last < first {
        0
    } else if last < reading_cuts::found_end(from)
        && reading_cuts::found_at(work, from, last) == right
    {
        last - first + 1
    } else {
        last - first
    }
}

// Whether the hits of every `step`th match are more than `room`: then those of all matches are.
pub fn exceed(
    lefts: &[u32],
    rights: &[u32],
    work: &[u32],
    from: CutSet,
    step: usize,
    room: usize,
) -> bool
    requires lefts_len { length lefts.now ≡ length rights.now }
    requires good { Good work.now from }
    requires found_run { FoundRun work.now from }
    requires step_nonzero { 0 < step }
    requires step_bound { step ≤ 4096 }
    ensures { result ≡ true
        → MoreHits lefts.now rights.now (found_in work.now from) room }
{
    let mut free = room;
    for k in (0..lefts.len()).step_by(step) {
        let hits = hits_of(work, from, lefts[k], rights[k]);
        if free < hits {
            return true;
        }
        free -= hits;
    }
    false
}
