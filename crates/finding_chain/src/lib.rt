// The backbone of a table that refining made, worked out in the lent buffers.
#![tactic(auto)]

ghost use Rattle.std.specs.Prelude.{◌≡◌, ◌*◌, ◌^◌, ◌≤◌, ◌<◌, length};
ghost use Rattle.rows.specs.Rows.{rows_of};
ghost use Rattle.refining.specs.Refining.{zeroed};
ghost use Rattle.finding_chain.specs.Finding.{Findable, FoundChain, DirectBy, Begun, points_at};

use clearing::clear;
use direct_rows::{collect, place_all};
use linking::link_all;
use refinement::Side;
use row_order::sort;
use rows::row_count;
use walking::write_chain;

// The score of a chain, and how many rows it has.
#[derive(Drop)]
pub struct Found {
    pub score: u64,
    pub length: usize,
}

// Writes the numbers of the direct rows in the order of a side; says how many.
fn order_by(table: &[u32], side: Side, numbers: &mut [u32], spare: &mut [u32]) -> usize
    requires table_in_bounds { length (rows_of table.now) ≤ length numbers.old }
    requires table_in_bounds_2 { length (rows_of table.now) ≤ length spare.old }
    requires table_len_bound { length (rows_of table.now) < 2 ^ 32 }
    ensures { DirectBy (rows_of table.now) side numbers.new result }
{
    let count = collect(table, numbers);
    sort(table, side, &mut numbers[..count], spare);
    count
}

// Arranges the direct rows by A, with their places by B; says how many.
fn arrange(table: &[u32], work: &mut [u32], scores: &mut [u32]) -> usize
    requires table_len_bound { length (rows_of table.now) < 2 ^ 32 }
    requires table_in_bounds { 4 * length (rows_of table.now) ≤ length work.old }
    requires work_value { work.old ≡ zeroed work.old }
    requires table_in_bounds_2 { length (rows_of table.now) ≤ length scores.old }
    ensures { Begun (rows_of table.now) work.new result }
{
    let rows = row_count(table);
    let count = order_by(table, Side::B, scores, &mut work[3 * rows..4 * rows]);
    place_all(&scores[..count], &mut work[rows..2 * rows]);
    order_by(table, Side::A, &mut work[..rows], scores)
}

// The score of the best chain from a row; 0 is none.
fn points(scores: &[u32], number: u32) -> u64
    requires { number ≤ length scores.now }
    ensures { result ≡ points_at scores.now number }
{
    if number == 0 {
        0
    } else {
        scores[number as usize - 1] as u64
    }
}

// Writes the backbone, and clears both buffers.
fn find(table: &[u32], price: u32, work: &mut [u32], chain: &mut [u32], scores: &mut [u32]) -> Found
    requires { Findable (rows_of table.now) price work.old chain.old scores.old }
    ensures { FoundChain (rows_of table.now) price work.old chain.old scores.old result
        work.new chain.new scores.new }
{
    let rows = row_count(table);
    let count = arrange(table, work, scores);
    let first = link_all(table, price, count, work, scores);
    let length = write_chain(&work[rows..2 * rows], first, chain);
    let score = points(scores, first);
    clear(work);
    clear(scores);
    Found { score, length }
}

// Writes the backbone of the table's rows to the chain buffer. The work buffer is zero before and after, the score
// buffer after.
pub fn find_chain(
    table: &[u32],
    price: u32,
    work: &mut [u32],
    chain: &mut [u32],
    scores: &mut [u32],
) -> Found
    requires { Findable (rows_of table.now) price work.old chain.old scores.old }
    ensures { FoundChain (rows_of table.now) price work.old chain.old scores.old result
        work.new chain.new scores.new }
{
    let part = 4 * row_count(table);
    find(table, price, &mut work[..part], chain, scores)
}
