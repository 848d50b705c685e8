// A set of cuts moves to other places of its lent slice, which may overlap the old ones.
#![tactic(auto)]

ghost use Rattle.std.specs.Prelude.{◌≡◌, ◌≤◌};
ghost use Rattle.moving.specs.Moving.{Shiftable, Shifted, Ends, placed, Movable, MovedSet};

use cut_set::CutSet;
use merging::move_up;

// Moves n numbers down, from the first on.
fn move_down(a: &mut [u32], lo: usize, to: usize, n: usize)
    requires shiftable { Shiftable a.old lo to n }
    requires to_le_lo { to ≤ lo }
    ensures { Shifted a.old lo to n a.new }
{
    for k in 0..n {
        a[to + k] = a[lo + k];
    }
}

// Moves n numbers, up or down. Old and new places may overlap.
fn relocate(a: &mut [u32], lo: usize, to: usize, n: usize)
    requires { Shiftable a.old lo to n }
    ensures { Shifted a.old lo to n a.new }
{
    if to < lo {
        move_down(a, lo, to, n);
    } else if lo < to {
        move_up(a, lo, lo + n, to - lo);
    }
}

// The ends of a set's runs, where its members stand from base on.
fn place(s: CutSet, base: usize, limit: usize) -> CutSet
    requires { Ends s base limit }
    ensures { result ≡ placed s base limit }
{
    let used = base + (s.used - s.base);
    CutSet {
        base,
        long: base + (s.long - s.base),
        mid: base + (s.mid - s.base),
        done: base + (s.done - s.base),
        fresh: used,
        used,
        top: limit,
        limit,
    }
}

// Moves a set to the places [base, limit).
pub fn move_set(a: &mut [u32], s: CutSet, base: usize, limit: usize) -> CutSet
    requires { Movable a.old s base limit }
    ensures { MovedSet a.old s base limit a.new result }
{
    relocate(a, s.base, base, s.used - s.base);
    place(s, base, limit)
}
