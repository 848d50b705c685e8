// The best chain from each direct row, from the right end of A to the left: each row is linked to the best row that may
// follow it, if that gains anything.
#![tactic(auto)]

ghost use Rattle.std.specs.Prelude.{◌≡◌, ◌+◌, ◌*◌, ◌≤◌, ◌<◌, length};
ghost use Rattle.rows.specs.Rows.{rows_of};
ghost use Rattle.backbone.specs.Chains.{Follows, skipped};
ghost use Rattle.best_chains.specs.Best.{Apart};
ghost use Rattle.linking.specs.Linking.{Extendable, Extended, Ready, Found, Puttable, Put};
ghost use Rattle.linking.specs.Linking.{foremost_of, Linked};

use best_rows::{best_behind, enter};
use rows::{Row, row_at, row_count};
use weighing::gains;

// The row that a row is linked to, 0 for none, and the score of the best chain from it.
#[derive(Drop)]
struct Link {
    pub next: u32,
    pub score: u32,
}

// The price of the letters that a link skips, on A and on B.
fn link_cost(row: Row, other: Row, price: u32) -> u64
    requires follows { Follows row other }
    requires price_bound { price ≤ 1000 }
    ensures value { result ≡ price * skipped row other }
    ensures upper_bound { result ≤ 9000000000000 }
{
    let length = row.length as u64;
    let skipped_a = other.left_a as u64 - (row.left_a as u64 + length);
    let skipped_b = other.left_b as u64 - (row.left_b as u64 + length);
    price as u64 * (skipped_a + skipped_b)
}

// The link from a row to the best that may follow it, 0 for none: the score of the chain extended by the link is worked
// out as a signed number, and the link is made if that is above zero.
fn link_to(table: &[u32], scores: &[u32], price: u32, number: u32, next: u32) -> Link
    requires { Extendable (rows_of table.now) scores.now price number next }
    ensures { Extended (rows_of table.now) scores.now price number next result }
{
    let row = row_at(table, number as usize - 1);
    let alone = Link {
        next: 0,
        score: row.length,
    };
    if next == 0 {
        return alone;
    }
    let other = row_at(table, next as usize - 1);
    let cost = link_cost(row, other, price);
    let score = scores[next as usize - 1];
    if gains(score, cost) {
        Link {
            next,
            score: row.length + (score - cost as u32),
        }
    } else {
        alone
    }
}

// Of two rows the one with the higher score, of equal ones the lower number; 0 is none.
#[tactic(auto, unfolding(crate::specs::Linking::foremost_of))]
fn foremost(scores: &[u32], first: u32, number: u32) -> u32
    requires first_in_bounds { first ≤ length scores.now }
    requires le_number { (1 ≤ number) × (number ≤ length scores.now) }
    ensures { result ≡ foremost_of scores.now first number }
{
    if first == 0 {
        return number;
    }
    let score = scores[first as usize - 1];
    let other = scores[number as usize - 1];
    if score < other {
        number
    } else if other < score {
        first
    } else {
        number.min(first)
    }
}

// A row, its place by B, the row that it is linked to, 0 for none, and the score of the best chain from it.
#[derive(Clone, Copy)]
struct Step {
    pub number: u32,
    pub place: u32,
    pub next: u32,
    pub score: u32,
}

// The link of the row at place t of the order by A: to the best of the rows entered behind its place by B.
fn find_link(
    table: &[u32],
    price: u32,
    count: usize,
    work: &[u32],
    scores: &[u32],
    t: usize,
) -> Step
    requires apart { Apart (rows_of table.now) }
    requires price_bound { price ≤ 1000 }
    requires ready { Ready price (rows_of table.now) count t work.now scores.now }
    ensures { Found price (rows_of table.now) t work.now result }
{
    let rows = row_count(table);
    let number = work[t];
    let place = work[rows + number as usize - 1];
    let next = best_behind(
        table,
        scores,
        price,
        &work[2 * rows..3 * rows],
        count,
        place as usize,
    );
    let made = link_to(table, scores, price, number, next);
    Step {
        number,
        place,
        next: made.next,
        score: made.score,
    }
}

// Writes the score and the link, and enters the row.
fn put_link(
    table: &[u32],
    price: u32,
    count: usize,
    work: &mut [u32],
    scores: &mut [u32],
    step: Step,
)
    requires { Puttable price (rows_of table.now) count work.old scores.old step }
    ensures { Put price (rows_of table.now) count step work.old scores.old work.new
        scores.new }
{
    let rows = row_count(table);
    let k = step.number as usize - 1;
    scores[k] = step.score;
    work[rows + k] = step.next;
    enter(
        table,
        scores,
        price,
        &mut work[2 * rows..3 * rows],
        count,
        step.place as usize,
        step.number,
    );
}

// Links the row at place t of the order by A, and enters it; gives where the best chain begins so far.
fn link_row(
    table: &[u32],
    price: u32,
    count: usize,
    work: &mut [u32],
    scores: &mut [u32],
    t: usize,
    first: u32,
) -> u32
    requires apart { Apart (rows_of table.now) }
    requires price_bound { price ≤ 1000 }
    requires linked { Linked price (rows_of table.now) count t work.old scores.old first }
    requires t_lt_count { t < count }
    ensures { Linked price (rows_of table.now) count (t + 1) work.new scores.new result }
{
    let step = find_link(table, price, count, work, scores, t);
    put_link(table, price, count, work, scores, step);
    foremost(scores, first, step.number)
}

// Links all; gives where the best chain begins, 0 if there is no direct row.
pub fn link_all(
    table: &[u32],
    price: u32,
    count: usize,
    work: &mut [u32],
    scores: &mut [u32],
) -> u32
    requires apart { Apart (rows_of table.now) }
    requires price_bound { price ≤ 1000 }
    requires linked { Linked price (rows_of table.now) count 0 work.old scores.old 0 }
    ensures { Linked price (rows_of table.now) count count work.new scores.new result }
{
    let mut first = 0;
    for t in 0..count {
        first = link_row(table, price, count, work, scores, t, first);
    }
    first
}
