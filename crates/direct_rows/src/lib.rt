// The numbers of the direct rows of a table, and where each stands in an order.
#![tactic(auto)]

ghost use Rattle.std.specs.Prelude.{◌≡◌, ◌≤◌, ◌<◌, ◌^◌, length};
ghost use Rattle.rows.specs.Rows.{rows_of};
ghost use Rattle.direct_rows.specs.Direct.{Collected, Placeable, Placed};

use rows::{row_at, row_count};

// Writes the numbers of the direct rows, rising; says how many.
pub fn collect(table: &[u32], out: &mut [u32]) -> usize
    requires table_in_bounds { length (rows_of table.now) ≤ length out.old }
    requires table_len_bound { length (rows_of table.now) < 2 ^ 32 }
    ensures { Collected (rows_of table.now) out.new result }
{
    let mut used = 0;
    for k in 0..row_count(table) {
        if row_at(table, k).direction == 0 {
            out[used] = k as u32 + 1;
            used += 1;
        }
    }
    used
}

// Writes for each number of the order its place there, counted from 0.
pub fn place_all(order: &[u32], places: &mut [u32])
    requires { Placeable order.now places.old }
    ensures { Placed order.now places.new }
{
    for (t, number) in order.iter().enumerate() {
        places[*number as usize - 1] = t as u32;
    }
}
