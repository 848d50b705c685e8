// The stretches that the rows of a table have on a side, gathered in a window of letters: a pass over the table joins a
// row's stretch with the next ones while they touch, and stores what is joined. Where there is not room for all, the
// store has cut the window short.
#![tactic(auto)]

ghost use Rattle.std.specs.Prelude.{◌≤◌, ◌<◌, ◌≡◌, ◌&&◌, length, leb};
ghost use Rattle.rows.specs.Rows.{rows_of, row_at};
ghost use Rattle.stretches.specs.Stores.{Rooms};
ghost use Rattle.row_stretches.specs.Passes.{end, StretchOf, Running, TakenIn, Passed, Gathered};

use refinement::{Side, on_side};
use rows::{row_at, row_count};
use stretches::{Store, Stretch, put};

// A pass over the rows: the store, and the run of touching stretches that is not stored yet.
#[derive(Clone, Copy)]
pub struct Pass {
    pub store: Store,
    pub run: Stretch,
}

// The stretch of row k.
pub fn stretch_at(table: &[u32], k: usize, side: Side) -> Stretch
    requires { k < length (rows_of table.now) }
    ensures { StretchOf side (row_at (rows_of table.now) k) result }
{
    let row = row_at(table, k);
    let low = on_side(side, row.left_a, row.left_b) as u64;
    Stretch {
        low,
        high: low + row.length as u64,
    }
}

// Whether two stretches touch, or share letters.
fn touch(a: Stretch, b: Stretch) -> bool
    ensures { result ≡ leb a.low b.high && leb b.low a.high }
{
    a.low <= b.high && b.low <= a.high
}

// Takes one more stretch in: one that touches the run makes it longer, and another begins the next run.
fn take_in(lows: &mut [u64], highs: &mut [u64], pass: Pass, from: u64, next: Stretch) -> Pass
    requires rooms { Rooms lows.old highs.old }
    requires running { Running from lows.old highs.old pass }
    requires low_le_high { next.low ≤ next.high }
    ensures { TakenIn from next lows.old highs.old pass lows.new highs.new result }
{
    let Pass { store, run } = pass;
    if next.high <= from || store.to <= next.low {
        pass
    } else if touch(run, next) {
        let longer = Stretch {
            low: run.low.min(next.low),
            high: run.high.max(next.high),
        };
        Pass { store, run: longer }
    } else {
        let more = put(lows, highs, store, from, run);
        Pass {
            store: more,
            run: next,
        }
    }
}

// Takes the stretches of all rows in, in a window from `from` to `to`.
fn pass_over(
    table: &[u32],
    side: Side,
    from: u64,
    to: u64,
    lows: &mut [u64],
    highs: &mut [u64],
) -> Pass
    requires rooms { Rooms lows.old highs.old }
    requires from_lt_to { (from < to) × (to ≤ end) }
    ensures { Passed side (rows_of table.now) from lows.new highs.new result }
{
    let mut pass = Pass {
        store: Store { used: 0, to },
        run: Stretch {
            low: from,
            high: from,
        },
    };
    for k in 0..row_count(table) {
        let next = stretch_at(table, k, side);
        pass = take_in(lows, highs, pass, from, next);
    }
    pass
}

// Gathers the stretches of all rows in a window from `from` to `to`, as far as there is room.
pub fn gather(
    table: &[u32],
    side: Side,
    from: u64,
    to: u64,
    lows: &mut [u64],
    highs: &mut [u64],
) -> Store
    requires rooms { Rooms lows.old highs.old }
    requires from_lt_to { (from < to) × (to ≤ end) }
    ensures { Gathered side (rows_of table.now) from lows.new highs.new result }
{
    let last = pass_over(table, side, from, to, lows, highs);
    put(lows, highs, last.store, from, last.run)
}
