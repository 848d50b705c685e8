// Rows that were entered at their places, and the best of those behind a place, in steps that halve the places.
#![tactic(auto)]

ghost use Rattle.std.specs.Prelude.{◌≡◌, ◌+◌, ◌≤◌, ◌<◌, length};
ghost use Rattle.rows.specs.Rows.{rows_of};
ghost use Rattle.weighing.specs.Weighing.{Scored};
ghost use Rattle.best_rows.specs.Halves.{Holding, Behind, Entered};

use weighing::better;

// The best row entered behind the place, by its number; 0 is none.
pub fn best_behind(
    table: &[u32],
    scores: &[u32],
    price: u32,
    held: &[u32],
    count: usize,
    place: usize,
) -> u32
    requires scored { Scored (rows_of table.now) scores.now price }
    requires holding { Holding (rows_of table.now) held.now }
    requires count_in_bounds { count ≤ length held.now }
    requires place_lt_count { place < count }
    ensures { Behind price (rows_of table.now) scores.now held.now count place result }
{
    let mut best = 0;
    let mut lo = 0;
    let mut hi = count;
    // Not a `for`: each step halves what is left.
    while lo + 1 < hi {
        let mid = lo + (hi - lo) / 2;
        if place < mid {
            best = better(table, scores, price, best, held[mid]);
            hi = mid;
        } else {
            lo = mid;
        }
    }
    best
}

// Enters a row at its place.
pub fn enter(
    table: &[u32],
    scores: &[u32],
    price: u32,
    held: &mut [u32],
    count: usize,
    place: usize,
    number: u32,
)
    requires scored { Scored (rows_of table.now) scores.now price }
    requires holding { Holding (rows_of table.now) held.old }
    requires le_number { (1 ≤ number) × (number ≤ length (rows_of table.now)) }
    requires place_lt_count { place < count }
    requires count_in_bounds { count ≤ length held.old }
    ensures { Entered price (rows_of table.now) scores.now held.old 0 count place number
        held.new }
{
    let mut lo = 0;
    let mut hi = count;
    // Not a `for`: each step halves what is left.
    while lo + 1 < hi {
        let mid = lo + (hi - lo) / 2;
        if place < mid {
            hi = mid;
        } else {
            held[mid] = better(table, scores, price, held[mid], number);
            lo = mid;
        }
    }
}
