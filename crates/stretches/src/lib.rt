// Stretches of letters, kept by their ends: the left ends and the right ends stand in two arrays. Sorted, each array by
// itself, they tell what is covered: a letter is, if more left ends than right ends lie before it. Where they fill the
// arrays, stretches that touch become one; where that does not make room enough, the window of letters that they are
// kept for is cut short.
#![tactic(auto)]

ghost use Rattle.std.specs.Prelude.{◌<◌, length};
ghost use Rattle.stretches.specs.Stores.{Paired, Nested, Rooms, Stored, Held, United, Roomier, Added, Summed};

use sorted_numbers::sort;

// From `low` up to, not including, `high`.
#[derive(Clone, Copy)]
pub struct Stretch {
    pub low: u64,
    pub high: u64,
}

// How many stretches are gathered, and where the window of letters ends that they are gathered for.
#[derive(Clone, Copy)]
pub struct Store {
    pub used: usize,
    pub to: u64,
}

// Makes one of stretches that touch, of left ends and right ends that rise; says how many are left, at the front.
fn unite(lows: &mut [u64], highs: &mut [u64]) -> usize
    requires paired { Paired lows.old highs.old }
    requires lows_nonzero { 0 < length lows.old }
    ensures { United lows.old highs.old lows.new highs.new result }
{
    let mut used = 1;
    for k in 1..lows.len() {
        let low = lows[k];
        let high = highs[k];
        if low <= highs[used - 1] {
            highs[used - 1] = high;
        } else {
            lows[used] = low;
            highs[used] = high;
            used += 1;
        }
    }
    used
}

// Makes room in full arrays: unites what touches and, where more than four fifths are left, cuts the window.
fn make_room(lows: &mut [u64], highs: &mut [u64], from: u64, to: u64) -> Store
    requires rooms { Rooms lows.old highs.old }
    requires from_lt_to { (from < to) × Stored from to lows.old highs.old }
    ensures { Roomier from to lows.old highs.old lows.new highs.new result }
{
    sort(lows);
    sort(highs);
    let kept = unite(lows, highs);
    let most = lows.len() - lows.len() / 5;
    if kept <= most {
        Store { used: kept, to }
    } else {
        Store {
            used: most,
            to: to.min(lows[most]),
        }
    }
}

// Adds what of the stretch lies in the window.
fn add(lows: &mut [u64], highs: &mut [u64], store: Store, from: u64, stretch: Stretch) -> Store
    requires held { Held from lows.old highs.old store }
    requires used_in_bounds { store.used < length lows.old }
    ensures { Added from stretch lows.old highs.old store lows.new highs.new result }
{
    let low = stretch.low.max(from);
    let high = stretch.high.min(store.to);
    if high <= low {
        return store;
    }
    lows[store.used] = low;
    highs[store.used] = high;
    Store {
        used: store.used + 1,
        ..store
    }
}

// The same, where the arrays may be full.
pub fn put(lows: &mut [u64], highs: &mut [u64], store: Store, from: u64, stretch: Stretch) -> Store
    requires rooms { Rooms lows.old highs.old }
    requires held { Held from lows.old highs.old store }
    ensures { Added from stretch lows.old highs.old store lows.new highs.new result }
{
    if store.used < lows.len() {
        return add(lows, highs, store, from, stretch);
    }
    let roomier = make_room(lows, highs, from, store.to);
    add(lows, highs, roomier, from, stretch)
}

// The letters under stretches whose left ends and right ends rise.
fn count(lows: &[u64], highs: &[u64]) -> u64
    requires { Paired lows.now highs.now }
    ensures { Summed lows.now highs.now result }
{
    let mut letters = 0;
    let mut reach = 0;
    for k in 0..lows.len() {
        letters += highs[k] - lows[k].max(reach);
        reach = highs[k];
    }
    letters
}

// The letters under stretches in any order.
pub fn count_sorted(lows: &mut [u64], highs: &mut [u64]) -> u64
    requires { Nested lows.old highs.old }
    ensures { Summed lows.old highs.old result }
{
    sort(lows);
    sort(highs);
    count(lows, highs)
}
