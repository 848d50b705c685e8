// Refining the matches and marks of a script that was read: their cuts, and from these the rows of the table.
#![tactic(auto)]

ghost use Rattle.std.specs.Prelude.{◌≡◌, ◌≤◌, ◌<◌, false, length, replicate, take};
ghost use Rattle.refining.specs.Columns.{FitRead, RightEnds, columns_read};
ghost use Rattle.refining.specs.Refining.{held_in, work_needed};
ghost use Rattle.match_columns.specs.Held.{columns_in};
ghost use Rattle.tracks.specs.Tracks.{marks_of};
ghost use Rattle.refining_matches.specs.Tabling.{Tabled, MatchesRefined};

use clearing::clear;
use closing_two::close_two;
use match_columns::MatchColumns;
use right_ends::work_out;
use rows::ROW_WIDTH;
use script::Refusal;
use writing_rows::write_rows;

// Finds the cuts and writes the rows, if the table has room for them. The table is not touched before that is known.
fn cut_and_write(
    matches: &MatchColumns<'_>,
    straight: &[bool],
    mark_sides: &[u8],
    mark_positions: &[u32],
    index_a: &mut [u32],
    index_b: &mut [u32],
    table: &mut [u32],
    work: &mut [u32],
) -> Result<usize, Refusal>
    requires table_in_bounds { work_needed table.old ≤ length work.old }
    requires reversed_len_bound { length matches.now.reversed.now < 4294967296 }
    requires straight_value { straight.now ≡ replicate (length matches.now.reversed.now) false }
    requires mark_sides_len { length mark_sides.now ≡ length mark_positions.now }
    ensures { Tabled
        (held_in (columns_in matches.now) (marks_of mark_sides.now mark_positions.now))
        table.old table.new result }
{
    let capacity = table.len() / ROW_WIDTH;
    match close_two(
        matches,
        straight,
        mark_sides,
        mark_positions,
        index_a,
        index_b,
        work,
        capacity,
    ) {
        Err(_) => Err(Refusal::TooManyPieces),
        Ok(set) => {
            let cuts = settling::join(work, set);
            let run = reading_cuts::all_places(work, cuts);
            Ok(write_rows(matches, work, run.start, run.end, table))
        }
    }
}

// The matches of an admitted script, given by their ends, and its marks: 11, then 12, then the rows.
#[tactic(auto, using(crate::proofs::Tabling::short_refined))]
fn refine_matches(
    matches: &MatchColumns<'_>,
    straight: &[bool],
    mark_sides: &[u8],
    mark_positions: &[u32],
    index_a: &mut [u32],
    index_b: &mut [u32],
    table: &mut [u32],
    work: &mut [u32],
) -> Result<usize, Refusal>
    requires reversed_len_bound { length matches.now.reversed.now < 4294967296 }
    requires straight_value { straight.now ≡ replicate (length matches.now.reversed.now) false }
    requires mark_sides_len { length mark_sides.now ≡ length mark_positions.now }
    ensures { MatchesRefined
        (held_in (columns_in matches.now) (marks_of mark_sides.now mark_positions.now))
        table.old work.old result table.new work.new }
{
    if work.len() < 4 * (table.len() / ROW_WIDTH) {
        return Err(Refusal::WorkTooShort);
    }
    let answer = cut_and_write(
        matches,
        straight,
        mark_sides,
        mark_positions,
        index_a,
        index_b,
        table,
        work,
    );
    clear(work);
    answer
}

// The matches of an admitted script as they are read, with their lengths in the front of `right_b`. Their right ends
// are worked out here, once for each match and before any position is tried. Behind this call there are no lengths.
pub fn refine_read(
    left_a: &[u32],
    right_a: &mut [u32],
    left_b: &[u32],
    right_b: &mut [u32],
    reversed: &[bool],
    straight: &[bool],
    mark_sides: &[u8],
    mark_positions: &[u32],
    index_a: &mut [u32],
    index_b: &mut [u32],
    table: &mut [u32],
    work: &mut [u32],
) -> Result<usize, Refusal>
    requires fit_read { FitRead left_a.now left_b.now (take (length left_a.now) right_b.old) reversed.now }
    requires reversed_len_bound { length reversed.now < 4294967296 }
    requires straight_value { straight.now ≡ replicate (length reversed.now) false }
    requires mark_sides_len { length mark_sides.now ≡ length mark_positions.now }
    requires left_a_in_bounds { length left_a.now ≤ length right_a.old }
    requires left_a_in_bounds_2 { length left_a.now ≤ length right_b.old }
    ensures refined { MatchesRefined
        (held_in
        (columns_read left_a.now left_b.now
        (take (length left_a.now) right_b.old) reversed.now)
        (marks_of mark_sides.now mark_positions.now))
        table.old work.old result table.new work.new }
    ensures ends_a { RightEnds left_a.now (take (length left_a.now) right_b.old)
        (take (length left_a.now) right_a.new) }
    ensures ends_b { RightEnds left_b.now (take (length left_a.now) right_b.old)
        (take (length left_a.now) right_b.new) }
{
    work_out(left_a, left_b, right_a, right_b);
    let count = left_a.len();
    let matches = MatchColumns {
        lefts: left_a,
        rights: &right_a[..count],
        other_lefts: left_b,
        other_rights: &right_b[..count],
        reversed,
    };
    refine_matches(
        &matches,
        straight,
        mark_sides,
        mark_positions,
        index_a,
        index_b,
        table,
        work,
    )
}
