// The rows of the table: a piece between each two neighbouring cuts of a match.
#![tactic(auto)]

ghost use Rattle.std.specs.Prelude.{◌≡◌, suc, ◌+◌, ◌-◌, ◌*◌, ◌≤◌, length};
ghost use Rattle.std.proofs.Math.Seq.{slice};
ghost use Rattle.std.proofs.lemmas.List.Edits.{sets};
ghost use Rattle.rows.specs.Rows.{row_width, row_numbers};
ghost use Rattle.refinement.specs.Match.{match_ab};
ghost use Rattle.refinement.specs.Least.{piece_of, pieces_between};
ghost use Rattle.match_columns.specs.Held.{columns_in};
ghost use Rattle.refining.specs.Rows.{row_of_piece};
ghost use Rattle.writing_rows.specs.Writing.{Stretch, Cutting, Placed, Writable, Written};

use match_columns::MatchColumns;
use rows::ROW_WIDTH;
use runs::lower_bound;

// Writes the piece of a match from x to y on A as a row whose first number stands at `at`. Its left end on B faces x,
// or y in a reversed match.
fn write_piece(
    table: &mut [u32],
    at: usize,
    number: u32,
    left_a: u32,
    left_b: u32,
    right_b: u32,
    reversed: bool,
    x: u32,
    y: u32,
)
    requires stretch { Stretch left_a left_b right_b x y }
    requires row_width_in_bounds { at + row_width ≤ length table.old }
    ensures { table.new
        ≡ sets table.old at
        (row_numbers
        (row_of_piece (piece_of (match_ab number left_a left_b (right_b - left_b) reversed) x y))) }
{
    let low = if reversed { y } else { x };
    let image = refinement::carry(left_a, left_b, right_b, reversed, low);
    table[at] = number;
    table[at + 1] = x;
    table[at + 2] = image;
    table[at + 3] = y - x;
    table[at + 4] = u32::from(reversed);
}

// Writes the rows of one match, whose cuts on A stand at work[first] to work[last], as the rows from `row` on. Returns
// the number of the row after them.
fn write_match(
    work: &[u32],
    first: usize,
    last: usize,
    number: u32,
    left_a: u32,
    left_b: u32,
    right_b: u32,
    reversed: bool,
    table: &mut [u32],
    row: usize,
) -> usize
    requires cutting { Cutting work.now first last left_a (left_a + (right_b - left_b)) }
    requires left_b_le_right_b { left_b ≤ right_b }
    requires work_in_bounds { row_width * (row + length
        (pieces_between (match_ab number left_a left_b (right_b - left_b) reversed)
        (slice first (suc last) work.now)))
        ≤ length table.old }
    ensures { Placed
        (pieces_between (match_ab number left_a left_b (right_b - left_b) reversed)
        (slice first (suc last) work.now))
        row table.old table.new result }
{
    let mut next = row;
    for at in first..last {
        write_piece(
            table,
            ROW_WIDTH * next,
            number,
            left_a,
            left_b,
            right_b,
            reversed,
            work[at],
            work[at + 1],
        );
        next += 1;
    }
    next
}

// Writes the rows of every match from the table's start, and returns how many they are. The matches are carried from A,
// whose cuts stand at [lo, hi).
pub fn write_rows(
    matches: &MatchColumns<'_>,
    work: &[u32],
    lo: usize,
    hi: usize,
    table: &mut [u32],
) -> usize
    requires { Writable (columns_in matches.now) work.now lo hi table.old }
    ensures { Written (columns_in matches.now) (slice lo hi work.now) table.old table.new result }
{
    let mut row = 0;
    for k in 0..matches.reversed.len() {
        let left = matches.lefts[k];
        let first = lower_bound(work, lo, hi, left);
        let last = lower_bound(work, lo, hi, matches.rights[k]);
        row = write_match(
            work,
            first,
            last,
            (k + 1) as u32,
            left,
            matches.other_lefts[k],
            matches.other_rights[k],
            matches.reversed[k],
            table,
            row,
        );
    }
    row
}
