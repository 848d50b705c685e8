// The matches and the marks of a script, a lent column for each field.
ghost use Rattle.std.specs.Prelude.{◌≡◌, set};
ghost use Rattle.script.specs.Reading.{read_script, verdict_of};
ghost use Rattle.script.specs.Columns.{ColumnsRead, MarksRead};
ghost use Rattle.script.specs.Demands.{verdict_answer, ReadingDemand, ColumnsDemand, MarksDemand};
ghost use Rattle.reader.specs.Walking.{Admits, MatchPut, MarkPut};

use crate::read;
use crate::walk::next_at;
use script::command::{LENGTHS_WIDTH, MARK_WIDTH, MATCH_WIDTH, Mark, Match};
use script::step::Step;
use script::{Admitted, Refusal};

// Stores a value at k, if the column reaches so far: a number, a direction, a side.
fn put<T: Copy>(column: &mut [T], k: usize, value: T)
    ensures { column.new ≡ set column.old k value }
{
    if k < column.len() {
        column[k] = value;
    }
}

// Stores a match behind k others.
fn put_match(
    found: Match,
    k: usize,
    left_a: &mut [u32],
    left_b: &mut [u32],
    lengths: &mut [u32],
    reversed: &mut [bool],
)
    ensures { MatchPut found k
        left_a.old left_b.old lengths.old reversed.old
        left_a.new left_b.new lengths.new reversed.new }
{
    put(left_a, k, found.left_a);
    put(left_b, k, found.left_b);
    put(lengths, k, found.length);
    put(reversed, k, found.reversed);
}

// Stores a mark behind k others.
fn put_mark(found: Mark, k: usize, sides: &mut [u8], positions: &mut [u32])
    ensures { MarkPut found k
        sides.old positions.old sides.new positions.new }
{
    put(sides, k, found.side);
    put(positions, k, found.position);
}

// The six columns of an admitted script, filled command by command.
fn fill_columns(
    script: &[u8],
    left_a: &mut [u32],
    left_b: &mut [u32],
    lengths: &mut [u32],
    reversed: &mut [bool],
    sides: &mut [u8],
    positions: &mut [u32],
)
    requires { Admits script.now }
    ensures columns { ColumnsRead script.now
        left_a.old left_b.old lengths.old reversed.old
        left_a.new left_b.new lengths.new reversed.new }
    ensures marks { MarksRead script.now sides.old positions.old sides.new
        positions.new }
{
    let mut count: usize = 0;
    let mut marks: usize = 0;
    let mut at: usize = LENGTHS_WIDTH;
    // Not a `for`: each command tells where the next one stands.
    loop {
        match next_at(script, at) {
            Step::Finish => return,
            Step::Take(found) => {
                put_match(found, count, left_a, left_b, lengths, reversed);
                count += 1;
                at += MATCH_WIDTH;
            }
            Step::Keep(found) => {
                put_mark(found, marks, sides, positions);
                marks += 1;
                at += MARK_WIDTH;
            }
        }
    }
}

// Reads a script, and the matches and marks of an admitted one into the columns: match k at k - 1, and so the marks, as
// far as each column reaches. All commands are judged before any is written, so that a refusal leaves the columns as
// they were.
pub fn read_columns(
    script: &[u8],
    left_a: &mut [u32],
    left_b: &mut [u32],
    lengths: &mut [u32],
    reversed: &mut [bool],
    sides: &mut [u8],
    positions: &mut [u32],
) -> Result<Admitted, Refusal>
    ensures reply { result ≡ verdict_of (read_script script.now) }
    ensures columns { ColumnsRead script.now
        left_a.old left_b.old lengths.old reversed.old
        left_a.new left_b.new lengths.new reversed.new }
    ensures marks { MarksRead script.now sides.old positions.old sides.new
        positions.new }
    ensures demand { ReadingDemand script.now (verdict_answer result) }
    ensures columns_demand { ColumnsDemand script.now
        left_a.old left_b.old lengths.old reversed.old
        left_a.new left_b.new lengths.new reversed.new }
    ensures marks_demand { MarksDemand script.now sides.old positions.old sides.new
        positions.new }
{
    let admitted = read(script)?;
    fill_columns(script, left_a, left_b, lengths, reversed, sides, positions);
    Ok(admitted)
}
