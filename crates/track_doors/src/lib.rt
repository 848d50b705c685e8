// The closure for any count of tracks, for the comparison alone: a slice arrives as a pointer and a length. Nothing asks a
// caller in C for what a `requires` says.
#![tactic(auto)]

ghost use Rattle.std.specs.Prelude.{◌≡◌, false, ◌*◌, ◌≤◌, length, replicate};
ghost use Rattle.refining.specs.Columns.{columns_of, Fit};
ghost use Rattle.tracks.specs.Tracks.{marks_of};
ghost use Rattle.tracks.specs.Engine.{books_of};
ghost use Rattle.tracks.specs.Groups.{Groups, grouped};
ghost use Rattle.track_doors.specs.Doors.{ClosedBy};

use closing::close;
use grouped_matches::GroupedMatches;
use match_columns::MatchColumns;

// Whether all cuts have room. Then they are in the sets that the two books tell.
#[unsafe(no_mangle)]
pub extern "C" fn close_tracks<'a>(
    left_a: &'a [u32],
    right_a: &'a [u32],
    left_b: &'a [u32],
    right_b: &'a [u32],
    reversed: &'a [bool],
    straight: &'a [bool],
    groups: &'a [usize],
    mark_tracks: &[u8],
    mark_positions: &[u32],
    index_a: &mut [u32],
    index_b: &mut [u32],
    work: &mut [u32],
    book_a: &mut [usize],
    book_b: &mut [usize],
    count: usize,
    sets: usize,
    capacity: usize,
) -> bool
    requires fit { Fit (columns_of left_a.now right_a.now left_b.now right_b.now reversed.now) }
    requires reversed_len_bound { length reversed.now ≤ 4294967296 }
    requires straight_value { straight.now ≡ replicate (length reversed.now) false }
    requires groups { Groups groups.now count (length reversed.now) sets }
    requires mark_tracks_len { length mark_tracks.now ≡ length mark_positions.now }
    requires sets_bound { sets ≤ 16 }
    requires book_a_len { length book_a.old ≡ 8 * sets }
    requires book_b_len { length book_b.old ≡ 8 * sets }
    requires capacity_in_bounds { 4 * capacity ≤ length work.old }
    ensures { ClosedBy
        (grouped
        (columns_of left_a.now right_a.now left_b.now right_b.now
        reversed.now)
        groups.now count (marks_of mark_tracks.now mark_positions.now))
        sets capacity work.new (books_of book_a.new book_b.new) result }
{
    let matches = MatchColumns {
        lefts: left_a,
        rights: right_a,
        other_lefts: left_b,
        other_rights: right_b,
        reversed,
    };
    let grouped_matches = GroupedMatches {
        matches,
        straight,
        groups,
        count,
        sets,
    };
    close(
        &grouped_matches,
        mark_tracks,
        mark_positions,
        index_a,
        index_b,
        work,
        book_a,
        book_b,
        capacity,
    )
    .is_ok()
}
