// The lines of the rows, and the fields that lines are made of. Each is put into a lent buffer from a place on, and the
// place behind it is returned; what does not fit is passed over and only counted.
#![tactic(auto)]

ghost use Rattle.std.specs.Prelude.{[], ◌∷◌, ◌++◌, ◌+◌, ◌*◌, ◌≤◌, length};
ghost use Rattle.rows.specs.Rows.{rows_of};
ghost use Rattle.text.specs.Decimal.{decimal};
ghost use Rattle.text.specs.Putting.{Put};
ghost use Rattle.reporting.specs.Lines.{sign, row_line, row_lines};
ghost use Rattle.reporting.specs.Reporting.{longest_text};

use rows::{Row, row_at, row_count};
use text::{put_byte, put_bytes, put_number};

// A number in decimal, and a byte behind it.
pub fn put_field(text: &mut [u8], at: usize, number: u64, after: u8) -> usize
    requires { at + 21 ≤ longest_text }
    ensures put { Put (decimal number ++ after ∷ []) text.old at text.new result }
    ensures upper_bound { result ≤ at + 21 }
{
    let next = put_number(text, at, number);
    put_byte(text, next, after)
}

// The last word of a row's line.
fn put_sign(text: &mut [u8], at: usize, direction: u32) -> usize
    requires { at + 2 ≤ longest_text }
    ensures { Put (sign direction ++ 10 ∷ []) text.old at text.new result }
{
    if direction == 0 {
        put_bytes(text, at, b"+\n")
    } else {
        put_bytes(text, at, b"-\n")
    }
}

// The line of a row.
fn put_row(text: &mut [u8], at: usize, row: Row) -> usize
    requires { at + 86 ≤ longest_text }
    ensures { Put (row_line row) text.old at text.new result }
{
    let number = put_field(text, at, row.number as u64, b' ');
    let left_a = put_field(text, number, row.left_a as u64, b' ');
    let left_b = put_field(text, left_a, row.left_b as u64, b' ');
    let length = put_field(text, left_b, row.length as u64, b' ');
    put_sign(text, length, row.direction)
}

// The lines of all rows of a table.
pub fn put_rows(text: &mut [u8], at: usize, table: &[u32]) -> usize
    requires { at + 86 * length (rows_of table.now) ≤ longest_text }
    ensures put { Put (row_lines (rows_of table.now)) text.old at text.new result }
    ensures upper_bound { result ≤ at + 86 * length (rows_of table.now) }
{
    let mut next = at;
    for k in 0..row_count(table) {
        next = put_row(text, next, row_at(table, k));
    }
    next
}
