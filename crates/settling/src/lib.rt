// Making the newly found members of a set finished, and all members one run.
#![tactic(auto)]

ghost use Rattle.std.specs.Prelude.{◌≡◌, ◌≤◌};
ghost use Rattle.cut_set.specs.Store.{Good, NothingAdded, NothingFound, AllFinished, Joined};
ghost use Rattle.settling.specs.Parts.{parts, Begins};

use cut_set::{CutSet, gather};
use merging::merge;
use merging_wide::merge_wide;
use noting::{forget, remember};

// From so many numbers on the middle run goes into the long one.
const MIDDLE: usize = 16384;

// The same members, all finished, with the long run up to `long` and the short one from `mid` on.
fn parted(s: CutSet, long: usize, mid: usize) -> CutSet
    ensures { result ≡ parts s long mid }
{
    CutSet {
        long,
        mid,
        done: s.used,
        fresh: s.used,
        ..s
    }
}

// Merges the middle run into the long one if it has come to be long. All members are finished.
fn lengthen(a: &mut [u32], s: CutSet) -> CutSet
    requires good { Good a.old s }
    requires nothing_found { NothingFound s }
    ensures { AllFinished a.old s a.new result }
{
    if s.mid - s.long <= MIDDLE {
        return s;
    }
    merge_wide(a, s.base, s.long, s.mid, s.used, s.top);
    parted(s, s.mid, s.mid)
}

// Makes many newly found members finished: the short run goes to the middle one; the members become the short one, or go
// to the middle one too if they are more than 512.
fn regroup(a: &mut [u32], s: CutSet) -> CutSet
    requires good { Good a.old s }
    requires nothing_added { NothingAdded s }
    ensures { AllFinished a.old s a.new result }
{
    merge(a, s.long, s.mid, s.done);
    if s.used - s.done <= 512 {
        parted(s, s.long, s.done)
    } else {
        merge_wide(a, s.long, s.done, s.used, s.used, s.top);
        parted(s, s.long, s.used)
    }
}

// The set with all newly found members made finished: they go to the short run if they fit there.
fn settle(a: &mut [u32], s: CutSet) -> CutSet
    requires good { Good a.old s }
    requires nothing_added { NothingAdded s }
    ensures { AllFinished a.old s a.new result }
{
    if s.done == s.used {
        return s;
    }
    if s.used - s.mid <= 512 {
        merge(a, s.mid, s.done, s.used);
        return parted(s, s.long, s.mid);
    }
    let t = regroup(a, s);
    lengthen(a, t)
}

// So many bits of notes for each member are worthwhile, and so many members.
const BITS: usize = 16;

const MANY: usize = 16;

// Where notes of so many members begin: at the limit if the set has enough of them, or no places for more.
fn notes_start(s: CutSet) -> usize
    requires base_le_used { s.base ≤ s.used }
    requires used_le_top { s.used ≤ s.top }
    requires top_le_limit { s.top ≤ s.limit }
    ensures { Begins s result }
{
    let members = s.used - s.base;
    let places = members / (32 / BITS) * 2;
    let few = members < MANY;
    let enough = members / (32 / BITS) <= s.limit - s.top;
    let crowded = (s.limit - s.used) / 2 < places;
    if few || enough || crowded || 134217728 < places {
        s.limit
    } else {
        s.limit - places
    }
}

// The set with notes of all its members from place `top` on. All members are finished.
fn note_members(a: &mut [u32], s: CutSet, top: usize) -> CutSet
    requires good { Good a.old s }
    requires nothing_found { NothingFound s }
    requires begins { Begins s top }
    ensures { AllFinished a.old s a.new result }
{
    forget(a, top, s.limit);
    remember(a, s.base, s.used, top, s.limit);
    CutSet { top, ..s }
}

// The set with notes of its members, if it has too few and they seem worthwhile. All members are finished.
fn take_notes(a: &mut [u32], s: CutSet) -> CutSet
    requires good { Good a.old s }
    requires nothing_found { NothingFound s }
    ensures { AllFinished a.old s a.new result }
{
    let top = notes_start(s);
    if top == s.limit {
        s
    } else {
        note_members(a, s, top)
    }
}

// The set with all newly found members made finished. Where some were finished before, it is likely that more will be
// found, and notes are taken.
pub fn finish(a: &mut [u32], s: CutSet) -> CutSet
    requires good { Good a.old s }
    requires nothing_added { NothingAdded s }
    ensures { AllFinished a.old s a.new result }
{
    let t = settle(a, s);
    if s.base == s.done {
        t
    } else {
        take_notes(a, t)
    }
}

// The set with its finished runs in one, where all members are finished.
fn unite(a: &mut [u32], s: CutSet) -> CutSet
    requires good { Good a.old s }
    requires nothing_found { NothingFound s }
    ensures { Joined a.old s a.new result }
{
    merge(a, s.long, s.mid, s.done);
    merge_wide(a, s.base, s.long, s.done, s.used, s.top);
    parted(s, s.used, s.used)
}

// The set with all members finished and in one rising run, the places [base, used).
pub fn join(a: &mut [u32], s: CutSet) -> CutSet
    requires { Good a.old s }
    ensures { Joined a.old s a.new result }
{
    let gathered = gather(a, s);
    let finished = settle(a, gathered);
    unite(a, finished)
}
