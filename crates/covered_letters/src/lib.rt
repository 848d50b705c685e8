// The letters that the rows of a table cover on a side, each counted once, without a lent buffer: the stretches of the
// rows are gathered in local arrays and summed up, in windows of letters where there is not room for all. A sample of
// the rows chooses the windows of a long table. One that refining made has at most 2,048 stretches to gather, one for
// each match, and takes one pass.
#![tactic(auto)]

ghost use Rattle.std.specs.Prelude.{◌≤◌, ◌<◌, ◌≡◌, length};
ghost use Rattle.rows.specs.Rows.{rows_of};
ghost use Rattle.table.specs.Covering.{cover_of};
ghost use Rattle.stretches.specs.Stores.{Rooms};
ghost use Rattle.row_stretches.specs.Passes.{end};
ghost use Rattle.covered_letters.specs.Windows.{Counted, Begun};

use refinement::Side;
use row_stretches::{gather, stretch_at};
use rows::row_count;
use sorted_numbers::sort;
use stretches::count_sorted;

// No stretch ends there or behind.
const END: u64 = 0x2_0000_0000;

// The stretches that there is room for: of a short table, and in a window of a longer one, which keeps 4,096 of them if
// it has to be cut.
const FEW: usize = 256;

const MANY: usize = 5120;

// The rows that a sample has at most, and the stretches that a window is to gather.
const SAMPLES: usize = 4096;

const EXPECTED: usize = 3840;

// The letters counted, and where their window ends.
#[derive(Drop)]
pub struct Window {
    pub letters: u64,
    pub to: u64,
}

// Counts the letters of a window from `from` to `to`, or to where it is cut.
fn count_window(
    table: &[u32],
    side: Side,
    from: u64,
    to: u64,
    lows: &mut [u64],
    highs: &mut [u64],
) -> Window
    requires rooms { Rooms lows.old highs.old }
    requires from_lt_to { (from < to) × (to ≤ end) }
    ensures { Counted side (rows_of table.now) from result }
{
    let store = gather(table, side, from, to, lows, highs);
    let used = store.used;
    let letters = count_sorted(&mut lows[..used], &mut highs[..used]);
    Window {
        letters,
        to: store.to,
    }
}

// The left ends of every step-th row, those from `from` on; says how many.
fn sample(table: &[u32], side: Side, from: u64, step: usize, lows: &mut [u64]) -> usize
    requires { 0 < step }
    ensures { result ≤ length lows.old }
{
    let mut used = 0;
    for k in (0..row_count(table)).step_by(step) {
        let next = stretch_at(table, k, side);
        if from <= next.low {
            if used == lows.len() {
                break;
            }
            lows[used] = next.low;
            used += 1;
        }
    }
    used
}

// Where a window from `from` on may end, so that there is likely to be room for the stretches that begin in it. The
// first window tries for all: what refining made has room there.
fn likely_end(table: &[u32], side: Side, from: u64, lows: &mut [u64]) -> u64
    requires { from < end }
    ensures { (from < result) × (result ≤ end) }
{
    if from == 0 {
        return END;
    }
    let step = row_count(table) / SAMPLES + 1;
    let used = sample(table, side, from, step, lows);
    sort(&mut lows[..used]);
    let at = EXPECTED / step + 1;
    if used <= at || lows[at] <= from {
        END
    } else {
        lows[at].min(END)
    }
}

fn count_with_few(table: &[u32], side: Side) -> Window
    ensures { Counted side (rows_of table.now) 0 result }
{
    let mut lows = [0u64; FEW];
    let mut highs = [0u64; FEW];
    count_window(table, side, 0, END, &mut lows, &mut highs)
}

fn count_with_many(table: &[u32], side: Side, from: u64) -> Window
    requires { from < end }
    ensures { Counted side (rows_of table.now) from result }
{
    let mut lows = [0u64; MANY];
    let mut highs = [0u64; MANY];
    let to = likely_end(table, side, from, &mut lows);
    count_window(table, side, from, to, &mut lows, &mut highs)
}

// The letters counted before, and those of the windows behind.
fn count_on(table: &[u32], side: Side, counted: Window) -> u64
    requires { Begun side (rows_of table.now) counted }
    ensures { result ≡ cover_of side (rows_of table.now) }
{
    let mut letters = counted.letters;
    let mut from = counted.to;
    // Not a `for`: the next window begins where this one was cut.
    while from < END {
        let next = count_with_many(table, side, from);
        letters += next.letters;
        from = next.to;
    }
    letters
}

// Counts window by window. A short table is not worth large arrays: those are on the stack of `count_on` alone, which
// is called twice lest the compiler make it a part of this function.
pub fn cover_of(table: &[u32], side: Side) -> u64
    ensures { result ≡ cover_of side (rows_of table.now) }
{
    if FEW < row_count(table) {
        return count_on(table, side, Window { letters: 0, to: 0 });
    }
    let few = count_with_few(table, side);
    if few.to < END {
        return count_on(table, side, few);
    }
    few.letters
}
