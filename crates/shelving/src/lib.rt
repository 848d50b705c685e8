// What is done to all sets of a shelf, one after the other.
#![tactic(auto)]

ghost use Rattle.std.specs.Prelude.{◌≡◌, ◌+◌, ◌*◌, ◌<◌, ◌≤◌, length};
ghost use Rattle.cut_set.specs.Store.{Good, NothingAdded, Part};
ghost use Rattle.shelf.specs.Shelf.{set_at, Shelf};
ghost use Rattle.shelving.specs.AllSets.{AllGathered, GatheredSets, FinishedSets, AnyFound, Layable, LaidOut};
ghost use Rattle.shelving.specs.OneSet.{GatheredSet, FinishedSet, EmptiedSet, Between};

use cut_set::{empty, gather};
use settling::finish;
use shelf::{load, save};

// Gathers the set number j.
fn gather_set(work: &mut [u32], book: &mut [usize], j: usize)
    requires j_in_bounds { 8 * j + 8 ≤ length book.old }
    requires good { Good work.old (set_at book.old j) }
    ensures { GatheredSet j work.old book.old work.new book.new }
{
    let s = load(book, j);
    let t = gather(work, s);
    save(book, j, t);
}

// Gathers every set.
pub fn gather_sets(work: &mut [u32], book: &mut [usize], sets: usize, lo: usize, hi: usize)
    requires { Shelf work.old book.old sets lo hi }
    ensures { GatheredSets sets lo hi work.old book.old work.new book.new }
{
    for j in 0..sets {
        gather_set(work, book, j);
    }
}

// Makes the newly found members of the set number j finished.
fn finish_set(work: &mut [u32], book: &mut [usize], j: usize)
    requires j_in_bounds { 8 * j + 8 ≤ length book.old }
    requires good { Good work.old (set_at book.old j) }
    requires nothing_added { NothingAdded (set_at book.old j) }
    ensures { FinishedSet j work.old book.old work.new book.new }
{
    let s = load(book, j);
    let t = finish(work, s);
    save(book, j, t);
}

// Makes the newly found members of every set finished.
pub fn finish_sets(work: &mut [u32], book: &mut [usize], sets: usize, lo: usize, hi: usize)
    requires shelf { Shelf work.old book.old sets lo hi }
    requires all_gathered { AllGathered book.old sets }
    ensures { FinishedSets sets lo hi work.old book.old work.new book.new }
{
    for j in 0..sets {
        finish_set(work, book, j);
    }
}

// Whether some set has newly found members.
pub fn any_found(book: &[usize], sets: usize) -> bool
    requires { 8 * sets ≤ length book.now }
    ensures { AnyFound book.now sets result }
{
    for j in 0..sets {
        let s = load(book, j);
        if s.done != s.used {
            return true;
        }
    }
    false
}

// How many sets are wanted.
fn count_wanted(wanted: &[bool]) -> usize {
    wanted.iter().filter(|is_wanted| **is_wanted).count()
}

// Where the part of the next set ends, which begins at `at`: one that is wanted has an equal share of the places
// [at, hi), of which `left` sets are to have some, and so the last of them has all that are left.
fn share_end(wanted: bool, at: usize, hi: usize, left: usize) -> usize
    requires { at ≤ hi }
    ensures { Between at result hi }
{
    if !wanted {
        at
    } else if left <= 1 {
        hi
    } else {
        at + (hi - at) / left
    }
}

// How many sets are to have a part behind this one.
fn left_behind(wanted: bool, left: usize) -> usize {
    left.saturating_sub(usize::from(wanted))
}

// Makes the set number j an empty one in the places [base, limit).
fn empty_set(work: &[u32], book: &mut [usize], j: usize, base: usize, limit: usize)
    requires j_in_bounds { 8 * j + 8 ≤ length book.old }
    requires part { Part work.now base limit }
    ensures { EmptiedSet j base limit work.now book.old book.new }
{
    let s = empty(work, base, limit);
    save(book, j, s);
}

// Makes every set an empty one. The wanted ones share the places [lo, hi), and the others have none.
pub fn lay_out(work: &[u32], book: &mut [usize], sets: usize, lo: usize, hi: usize, wanted: &[bool])
    requires layable { Layable work.now book.old sets lo hi }
    requires wanted_len { length wanted.now ≡ sets }
    ensures { LaidOut sets lo hi work.now book.new }
{
    let mut left = count_wanted(wanted);
    let mut at = lo;
    for j in 0..sets {
        let is_wanted = wanted[j];
        let limit = share_end(is_wanted, at, hi, left);
        left = left_behind(is_wanted, left);
        empty_set(work, book, j, at, limit);
        at = limit;
    }
}
