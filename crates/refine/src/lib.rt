// The refining call, which stands above the reader, the theory and the store of cuts.
#![tactic(auto)]

ghost use Rattle.std.specs.Prelude.{◌≡◌, ◌+◌, ◌^◌, ◌≤◌, ◌<◌, length};
ghost use Rattle.refining.specs.Refining.{refining_of};
ghost use Rattle.script.specs.Reading.{read_script};
ghost use Rattle.script.specs.Columns.{matches_read, marks_read};
ghost use Rattle.refine.specs.Calls.{Roomy, RoomyMarks, Straight, ScriptRefined};
ghost use Rattle.refining.specs.Demands.{answer_of, Demand1, Demand2, Demand3};

use reader::columns::read_columns;
use refining_matches::refine_read;
use script::Refusal;
use script::command::{LENGTHS_WIDTH, MATCH_WIDTH};
use script::limits::{MOST_MARKS, MOST_MATCHES};

// Columns of these lengths take scripts of few and of some matches: to make longer ones would be most of the work.
const FEW_MATCHES: usize = 32;

const SOME_MATCHES: usize = 256;

// No script with the bytes of few matches has room for more marks.
const FEW_MARKS: usize = 71;

// Room for an index of so many matches; few have none.
const FEW_INDEX: usize = 1;

const SOME_INDEX: usize = 800;

const MOST_INDEX: usize = 6400;

// Lengths, that many matches, end.
const SHORT_SCRIPT: usize = LENGTHS_WIDTH + MATCH_WIDTH * FEW_MATCHES + 1;

const MEDIUM_SCRIPT: usize = LENGTHS_WIDTH + MATCH_WIDTH * SOME_MATCHES + 1;

// Reads the script into columns that have room for its matches and its marks, and refines them. The lengths come into
// the column of the right ends on B, and these in their place. `straight` is all false.
fn refine_in(
    script: &[u8],
    left_a: &mut [u32],
    right_a: &mut [u32],
    left_b: &mut [u32],
    right_b: &mut [u32],
    reversed: &mut [bool],
    straight: &[bool],
    sides: &mut [u8],
    positions: &mut [u32],
    index_a: &mut [u32],
    index_b: &mut [u32],
    table: &mut [u32],
    work: &mut [u32],
) -> Result<usize, Refusal>
    requires roomy { Roomy script.now left_a.old right_a.old left_b.old right_b.old reversed.old }
    requires straight { Straight script.now straight.now }
    requires roomy_marks { RoomyMarks script.now sides.old positions.old }
    ensures { ScriptRefined script.now table.old work.old result table.new
        work.new }
{
    let read = read_columns(script, left_a, left_b, right_b, reversed, sides, positions)?;
    let count = read.count;
    let marks = read.marks;
    refine_read(
        &left_a[..count],
        right_a,
        &left_b[..count],
        right_b,
        &reversed[..count],
        &straight[..count],
        &sides[..marks],
        &positions[..marks],
        index_a,
        index_b,
        table,
        work,
    )
}

// A script whose matches and marks have room in columns of these lengths, which are made here, and with room for two
// indices of such a length.
fn refine_sized<const MATCHES: usize, const MARKS: usize, const INDEX: usize>(
    script: &[u8],
    table: &mut [u32],
    work: &mut [u32],
) -> Result<usize, Refusal>
    requires matches { length (matches_read (read_script script.now)) ≤ MATCHES }
    requires marks { length (marks_read (read_script script.now)) ≤ MARKS }
    requires columns_bound { MATCHES + MARKS + INDEX < 2 ^ 32 }
    ensures { ScriptRefined script.now table.old work.old result table.new work.new }
{
    let mut left_a = [0; MATCHES];
    let mut right_a = [0; MATCHES];
    let mut left_b = [0; MATCHES];
    let mut right_b = [0; MATCHES];
    let mut reversed = [false; MATCHES];
    let straight = [false; MATCHES];
    let mut sides = [0u8; MARKS];
    let mut positions = [0; MARKS];
    let mut index_a = [0; INDEX];
    let mut index_b = [0; INDEX];
    refine_in(
        script,
        &mut left_a[..],
        &mut right_a[..],
        &mut left_b[..],
        &mut right_b[..],
        &mut reversed[..],
        &straight[..],
        &mut sides[..],
        &mut positions[..],
        &mut index_a[..],
        &mut index_b[..],
        table,
        work,
    )
}

// Any script, in columns that are made for long ones. It is called from two places, so that these are in a frame of its
// own: a short script has no use for it.
pub fn refine_long(script: &[u8], table: &mut [u32], work: &mut [u32]) -> Result<usize, Refusal>
    ensures { ScriptRefined script.now table.old work.old result table.new
        work.new }
{
    if script.len() <= MEDIUM_SCRIPT {
        refine_sized::<SOME_MATCHES, MOST_MARKS, SOME_INDEX>(script, table, work)
    } else {
        refine_sized::<MOST_MATCHES, MOST_MARKS, MOST_INDEX>(script, table, work)
    }
}

// Makes the piece table of a script. Success gives the count of rows, which stand from the table's start.
pub fn refine(script: &[u8], table: &mut [u32], work: &mut [u32]) -> Result<usize, Refusal>
    ensures reply { result ≡ (refining_of script.now table.old work.old).reply }
    ensures table { table.new ≡ (refining_of script.now table.old work.old).table }
    ensures work { work.new ≡ (refining_of script.now table.old work.old).work }
    ensures demand1 { Demand1 script.now table.old work.old (answer_of result) table.new
        work.new }
    ensures demand2 { Demand2 script.now table.old work.old (answer_of result) table.new }
    ensures demand3 { Demand3 script.now table.old work.old (answer_of result) table.new }
{
    if script.len() <= SHORT_SCRIPT {
        refine_sized::<FEW_MATCHES, FEW_MARKS, FEW_INDEX>(script, table, work)
    } else {
        refine_long(script, table, work)
    }
}
