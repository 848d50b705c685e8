// One share of a large table, counted run by run: the rows of the share in a run are picked without a branch, which
// would be guessed wrong at every other row of the share, and then enrolled.
#![tactic(auto)]

ghost use Rattle.std.specs.Prelude.{◌-◌, ◌<◌, ◌≤◌, ◌^◌, length};
ghost use Rattle.rows.specs.Rows.{rows_of};
ghost use Rattle.distinct_store.specs.Store.{Empty, Sharing, Dealt};
ghost use Rattle.picked_rows.specs.Picking.{Picked, Run};

use distinct_store::{Counted, Dealing, Enrolled, GaveUp, enroll, spot_of};
use rows::{row_at, row_count};

const RUN: usize = 256;

// Writes down the numbers of the share's rows among those from `from` to `to`; says how many they are.
fn pick(table: &[u32], by: Dealing, share: u64, from: usize, to: usize, picked: &mut [u32]) -> usize
    requires table_len_bound { length (rows_of table.now) < 2 ^ 32 }
    requires from_le_to { (from ≤ to) × (to ≤ length (rows_of table.now)) }
    requires from_in_bounds { to - from ≤ length picked.old }
    ensures { Picked by share (rows_of table.now) from to picked.new result }
{
    let mut used: usize = 0;
    for k in from..to {
        picked[used] = k as u32;
        used += usize::from(spot_of(row_at(table, k), by) / 0x1_0000_0000 == share);
    }
    used
}

// Enrolls the share's rows among those from `from` to `to`, with `before` counted before.
fn count_run(
    table: &[u32],
    slots: &mut [u32],
    by: Dealing,
    share: u64,
    from: usize,
    to: usize,
    before: Counted,
) -> Result<Counted, GaveUp>
    requires table_len_bound { length (rows_of table.now) < 2 ^ 32 }
    requires from_le_to { (from ≤ to) × (to ≤ length (rows_of table.now)) × (to - from ≤ 256) }
    requires dealt { Dealt by share (rows_of table.now) slots.old before.found from }
    ensures { Run by share (rows_of table.now) to slots.new result }
{
    let mut picked = [0u32; RUN];
    let count = pick(table, by, share, from, to, &mut picked);
    let mut found = before.found;
    let mut left = before.left;
    for i in 0..count {
        let k = picked[i] as usize;
        let row = row_at(table, k);
        match enroll(table, slots, by, row, spot_of(row, by), k, left)? {
            Enrolled::Known(l) => left = l,
            Enrolled::Fresh(l) => {
                left = l;
                found += 1;
            }
        }
    }
    Ok(Counted { found, left })
}

// Counts the pieces of one share, with empty slots, in one pass over the table.
pub fn count_share(
    table: &[u32],
    slots: &mut [u32],
    by: Dealing,
    share: u64,
    probes: usize,
) -> Result<Counted, GaveUp>
    requires table_len_bound { length (rows_of table.now) < 2 ^ 32 }
    requires empty { Empty slots.old }
    ensures { Sharing by share (rows_of table.now) result }
{
    let rows = row_count(table);
    let mut counted = Counted {
        found: 0,
        left: probes,
    };
    let mut from: usize = 0;
    // Not a `for`: a run is many rows, and the last one fewer.
    while from < rows {
        let to = from + RUN.min(rows - from);
        counted = count_run(table, slots, by, share, from, to, counted)?;
        from = to;
    }
    Ok(counted)
}
