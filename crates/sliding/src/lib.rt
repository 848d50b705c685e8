// Sets of cuts side by side slide in their part of a lent slice, so that one of them gets room.
#![tactic(auto)]

ghost use Rattle.std.specs.Prelude.{◌≤◌, ◌<◌};
ghost use Rattle.shelf.specs.Shelf.{Shelf, MadeRoom};
ghost use Rattle.sliding.specs.Sliding.{Slidable, Slid, Bared, Between, MovedTo, Packed, Leaving};
ghost use Rattle.sliding.specs.Sliding.{Spreadable, Spread};

use cut_set::gather_bare;
use moving::move_set;
use shelf::{load, save};

// Gathers the set number u, and drops its notes.
fn bare_set(work: &mut [u32], book: &mut [usize], sets: usize, lo: usize, hi: usize, u: usize)
    requires shelf { Shelf work.old book.old sets lo hi }
    requires u_lt_sets { u < sets }
    ensures { Bared sets lo hi u work.old book.old work.new book.new }
{
    let s = load(book, u);
    let t = gather_bare(work, s);
    save(book, u, t);
}

// Gathers all sets, and drops their notes.
fn bare_sets(work: &mut [u32], book: &mut [usize], sets: usize, lo: usize, hi: usize)
    requires { Shelf work.old book.old sets lo hi }
    ensures { Slid sets lo hi work.old book.old work.new book.new }
{
    for u in 0..sets {
        bare_set(work, book, sets, lo, hi, u);
    }
}

// Moves the set number u to the places [base, limit), between its neighbours.
fn move_to(
    work: &mut [u32],
    book: &mut [usize],
    sets: usize,
    lo: usize,
    hi: usize,
    u: usize,
    base: usize,
    limit: usize,
)
    requires slidable { Slidable work.old book.old sets lo hi }
    requires between { Between book.old sets lo hi u base limit }
    ensures { MovedTo sets lo hi u base limit work.old book.old work.new
        book.new }
{
    let s = load(book, u);
    let t = move_set(work, s, base, limit);
    save(book, u, t);
}

// Moves all sets down, so that all free places are behind the last. Returns where that ends.
fn pack(work: &mut [u32], book: &mut [usize], sets: usize, lo: usize, hi: usize) -> usize
    requires { Slidable work.old book.old sets lo hi }
    ensures { Packed sets lo hi work.old book.old work.new book.new result }
{
    let mut at = lo;
    for u in 0..sets {
        let s = load(book, u);
        let end = at + (s.used - s.base);
        move_to(work, book, sets, lo, hi, u, at, end);
        at = end;
    }
    at
}

// How many of the free places behind the set number u stay there: a share, for the set number j besides the reserve,
// which the sets behind it leave. The first set gets the rest.
fn leave(free: usize, u: usize, j: usize, share: usize, reserve: usize) -> usize
    ensures { Leaving free u j reserve result }
{
    if u == 0 {
        free
    } else if u < j {
        free.min(share)
    } else if free < reserve {
        free
    } else if u == j {
        reserve + share.min(free - reserve)
    } else {
        share.min(free - reserve)
    }
}

// Moves the sets up from the last on, so that the set number j has the reserve at least, and the others a share.
fn spread(
    work: &mut [u32],
    book: &mut [usize],
    sets: usize,
    lo: usize,
    hi: usize,
    j: usize,
    share: usize,
    reserve: usize,
)
    requires { Spreadable work.old book.old sets lo hi j reserve }
    ensures { Spread sets lo hi j reserve work.old book.old work.new book.new }
{
    let mut end = hi;
    for u in (0..sets).rev() {
        let s = load(book, u);
        let free = end - s.used;
        let base = s.base + (free - leave(free, u, j, share, reserve));
        move_to(work, book, sets, lo, hi, u, base, end);
        end = base;
    }
}

// Sets slide, so that the set number j has room for one number more, or all places are taken. It gets half of the free
// places: one that ran out of room is likely to grow.
pub fn make_room(
    work: &mut [u32],
    book: &mut [usize],
    sets: usize,
    lo: usize,
    hi: usize,
    j: usize,
) -> bool
    requires shelf { Shelf work.old book.old sets lo hi }
    requires j_lt_sets { j < sets }
    ensures { MadeRoom sets lo hi j work.old book.old work.new book.new result }
{
    bare_sets(work, book, sets, lo, hi);
    let end = pack(work, book, sets, lo, hi);
    if end == hi {
        return false;
    }
    let free = hi - end;
    let shares = free / 2;
    let reserve = free - shares;
    spread(work, book, sets, lo, hi, j, shares / sets, reserve);
    true
}
