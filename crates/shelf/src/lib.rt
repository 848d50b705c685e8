// Sets of cuts side by side in a part of a lent slice, and a book of where their runs end.
#![tactic(auto)]

ghost use Rattle.std.specs.Prelude.{◌≡◌, ◌+◌, ◌*◌, ◌≤◌, length};
ghost use Rattle.shelf.specs.Shelf.{set_at, Saved};
ghost use Rattle.shelf.specs.Writing.{FourPut};

use cut_set::CutSet;

// How many numbers of the book a set has.
pub const WIDTH: usize = 8;

// The set number j.
pub fn load(book: &[usize], j: usize) -> CutSet
    requires { 8 * j + 8 ≤ length book.now }
    ensures { result ≡ set_at book.now j }
{
    let at = WIDTH * j;
    CutSet {
        base: book[at],
        long: book[at + 1],
        mid: book[at + 2],
        done: book[at + 3],
        fresh: book[at + 4],
        used: book[at + 5],
        top: book[at + 6],
        limit: book[at + 7],
    }
}

// Writes four numbers from place `at` on.
fn put_four(book: &mut [usize], at: usize, a: usize, b: usize, c: usize, d: usize)
    requires { at + 4 ≤ length book.old }
    ensures { FourPut book.old at a b c d book.new }
{
    book[at] = a;
    book[at + 1] = b;
    book[at + 2] = c;
    book[at + 3] = d;
}

// Writes s as the set number j.
pub fn save(book: &mut [usize], j: usize, s: CutSet)
    requires { 8 * j + 8 ≤ length book.old }
    ensures { Saved book.old j s book.new }
{
    let at = WIDTH * j;
    put_four(book, at, s.base, s.long, s.mid, s.done);
    put_four(book, at + 4, s.fresh, s.used, s.top, s.limit);
}
