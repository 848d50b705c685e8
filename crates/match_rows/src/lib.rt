// The rows of one match, as a part of the lent table.
#![tactic(auto)]

ghost use Rattle.std.specs.Prelude.{◌≡◌, ◌+◌, ◌≤◌, length, drop};
ghost use Rattle.rows.specs.Rows.{rows_of};
ghost use Rattle.table.specs.Finding.{before, run, start_of, span_of, part_of, further};

use rows::{ROW_WIDTH, row_at, row_count};
use table::Span;

fn rows_before(table: &[u32], number: u32) -> usize
    ensures { result ≡ before number (rows_of table.now) }
{
    let rows = row_count(table);
    for k in 0..rows {
        if row_at(table, k).number == number {
            return k;
        }
    }
    rows
}

fn run_end(table: &[u32], number: u32, start: usize) -> usize
    requires { start ≤ length (rows_of table.now) }
    ensures { result ≡ start + run number (drop start (rows_of table.now)) }
{
    let rows = row_count(table);
    for k in start..rows {
        if row_at(table, k).number != number {
            return k;
        }
    }
    rows
}

// Where the rows with that number stand, from the first on until another number follows; 0 and 0 if none has it.
pub fn span_of(table: &[u32], number: u32) -> Span
    ensures { result ≡ span_of number table.now }
{
    let rows = row_count(table);
    let first = rows_before(table, number);
    if first < rows {
        Span {
            start: first * ROW_WIDTH,
            end: run_end(table, number, first) * ROW_WIDTH,
        }
    } else {
        Span { start: 0, end: 0 }
    }
}

// The rows with that number from the first on until another number follows; the empty part at the start if none has it.
pub fn rows_of(table: &[u32], number: u32) -> &[u32]
    ensures contents { result.now ≡ part_of number table.now }
    ensures place { result.ref_ptr ≡ further (start_of number table.now) table.entry.ref_ptr }
{
    let span = span_of(table, number);
    &table[span.start..span.end]
}
