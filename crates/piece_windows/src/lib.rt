// The count of distinct pieces in windows, whatever the rows: each pass over the table gathers the numbers of the rows
// whose pieces lie in a span of the order of pieces, sorts them and counts each piece once. A sample of the rows tells
// beforehand where the span may end. Where it holds more than there is room for all the same, it is cut short. The rest
// is for a later pass.
#![tactic(auto)]

ghost use Rattle.std.specs.Prelude.{◌+◌, ◌≤◌, ◌<◌, ◌≡◌, length};
ghost use Rattle.rows.specs.Rows.{rows_of};
ghost use Rattle.table.specs.Distinct.{first_of_each};
ghost use Rattle.sorted_pieces.specs.Order.{before, Numbers};
ghost use Rattle.piece_windows.specs.Windows.{in_span, Rooms, Gathered, Roomier, Stepped, Filled, Counted};

use rows::{Row, row_at, row_count};
use sorted_pieces::{compare, sort};

// The numbers that a window has room for.
const ROOM: usize = 8192;

// The rows that a sample has at most.
const SAMPLES: usize = 4096;

// The numbers that a window is to gather, with those of its sample.
const EXPECTED: usize = 6144;

// The pieces from `from` on, and if it is closed only those before `to`.
#[derive(Clone, Copy)]
pub struct Span {
    pub from: Row,
    pub to: Row,
    pub closed: bool,
}

// How many numbers are gathered, and the span that they are gathered for.
#[derive(Clone, Copy)]
pub struct Window {
    pub used: usize,
    pub span: Span,
}

fn stands_before(r: Row, s: Row) -> bool
    ensures { result ≡ before r s }
{
    compare(r, s).is_lt()
}

#[tactic(auto, unfolding(crate::specs::Windows::in_span))]
fn is_in_span(row: Row, span: Span) -> bool
    ensures { result ≡ in_span span row }
{
    !stands_before(row, span.from) && (!span.closed || stands_before(row, span.to))
}

// Sorts what is gathered, and where more than `at` pieces are left, cuts the span at the next.
fn make_room(
    table: &[u32],
    numbers: &mut [usize],
    spare: &mut [usize],
    span: Span,
    at: usize,
) -> Window
    requires numbers { Numbers (rows_of table.now) numbers.old }
    requires numbers_in_bounds { (length numbers.old ≤ length spare.old) × (0 < at) }
    ensures { Roomier (rows_of table.now) numbers.old span at numbers.new result }
{
    let kept = sort(table, numbers, spare);
    if kept <= at {
        return Window { used: kept, span };
    }
    Window {
        used: at,
        span: Span {
            from: span.from,
            to: row_at(table, numbers[at]),
            closed: true,
        },
    }
}

// Gathers every step-th row of the window's span, beside those that are gathered; a full window is cut in the middle.
fn gather(
    table: &[u32],
    numbers: &mut [usize],
    spare: &mut [usize],
    window: Window,
    step: usize,
) -> Window
    requires rooms { Rooms numbers.old spare.old }
    requires gathered { Gathered (rows_of table.now) 0 numbers.old window.used window.span }
    requires step_nonzero { (0 < step) × (step ≤ length (rows_of table.now) + 1) }
    ensures { Stepped (rows_of table.now) window.span.from step numbers.new result }
{
    let rows = row_count(table);
    let mut used = window.used;
    let mut span = window.span;
    let mut k: usize = 0;
    // Not a `for`: a step may pass over rows, and a full window is cut before the same row is looked at again.
    while k < rows {
        if used == numbers.len() {
            let shorter = make_room(table, numbers, spare, span, used / 2);
            used = shorter.used;
            span = shorter.span;
            continue;
        }
        let at = k;
        k += step;
        if is_in_span(row_at(table, at), span) {
            numbers[used] = at;
            used += 1;
        }
    }
    Window { used, span }
}

// Gathers the rows of the pieces from `from` on, as many pieces as there is room for. Where there may be more rows than
// that, a sample of them is gathered and cut first.
fn fill(table: &[u32], numbers: &mut [usize], spare: &mut [usize], from: Row) -> Window
    requires { Rooms numbers.old spare.old }
    ensures { Filled (rows_of table.now) from numbers.new result }
{
    let rows = row_count(table);
    let span = Span {
        from,
        to: from,
        closed: false,
    };
    let open = Window { used: 0, span };
    if rows <= numbers.len() {
        return gather(table, numbers, spare, open, 1);
    }
    let step = rows / SAMPLES + 1;
    let sample = gather(table, numbers, spare, open, step);
    let used = sample.used;
    let at = EXPECTED / (step + 1) + 1;
    let cut = make_room(table, &mut numbers[..used], spare, sample.span, at);
    gather(table, numbers, spare, cut, 1)
}

// Counts the pieces of one window; says which span it was.
fn count_window(table: &[u32], numbers: &mut [usize], spare: &mut [usize], from: Row) -> Window
    requires { Rooms numbers.old spare.old }
    ensures { Counted (rows_of table.now) from result }
{
    let filled = fill(table, numbers, spare, from);
    let used = filled.used;
    Window {
        used: sort(table, &mut numbers[..used], spare),
        span: filled.span,
    }
}

// Counts window by window, from the least piece on.
pub fn count_in_windows(table: &[u32]) -> usize
    ensures { result ≡ length (first_of_each (rows_of table.now)) }
{
    let mut numbers = [0usize; ROOM];
    let mut spare = [0usize; ROOM];
    let mut from = Row {
        number: 0,
        left_a: 0,
        left_b: 0,
        length: 0,
        direction: 0,
    };
    let mut found: usize = 0;
    loop {
        let window = count_window(table, &mut numbers, &mut spare, from);
        found += window.used;
        if !window.span.closed {
            return found;
        }
        from = window.span.to;
    }
}
