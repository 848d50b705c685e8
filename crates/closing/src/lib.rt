// All cuts: the ends of the matches and the marks that they span, taken from side to side until neither gains one.
#![tactic(auto)]

ghost use Rattle.std.specs.Prelude.{◌≡◌, true, ◌*◌, ◌≤◌, length};
ghost use Rattle.match_columns.specs.Held.{columns_in};
ghost use Rattle.tracks.specs.Tracks.{marks_of};
ghost use Rattle.tracks.specs.Engine.{books_of};
ghost use Rattle.grouped_matches.specs.Held.{tracked_in};
ghost use Rattle.driving.specs.Driving.{Driving, Closure};
ghost use Rattle.beginning.specs.Beginning.{Lent};

use beginning::begin;
use carrying_group::TooMany;
use driving::drive;
use grouped_matches::GroupedMatches;
use indexing::index_room;
use indexing_groups::index_groups;
use stepping::Closing;

// So few matches are looked through without an index.
const FEW_MATCHES: usize = 32;

// Whether an index is worthwhile and has room.
fn indexable(matches: usize, room: usize, places_a: usize, places_b: usize) -> bool
    ensures { result ≡ true → (room ≤ places_a) × (room ≤ places_b) }
{
    FEW_MATCHES < matches && room <= places_a && room <= places_b
}

// Goes on after the first turns: with an index of the matches of each group, if there are many and the index has room.
fn go_on(
    grouped: &GroupedMatches<'_>,
    mark_tracks: &[u8],
    mark_positions: &[u32],
    index_a: &mut [u32],
    index_b: &mut [u32],
    work: &mut [u32],
    book_a: &mut [usize],
    book_b: &mut [usize],
    first: Closing,
    capacity: usize,
) -> Result<(), TooMany>
    requires lent { Lent (columns_in grouped.now.matches) grouped.now.groups.now mark_tracks.now mark_positions.now
        grouped.now.count grouped.now.sets }
    requires driving { Driving (columns_in grouped.now.matches) grouped.now.groups.now grouped.now.count (marks_of
        mark_tracks.now mark_positions.now) grouped.now.sets capacity work.old book_a.old book_b.old (Ok first) }
    ensures { Closure (tracked_in grouped.now (marks_of mark_tracks.now mark_positions.now)) grouped.now.sets capacity
        work.new (books_of book_a.new book_b.new) result }
{
    let all = grouped.matches.lefts.len();
    let room = index_room(all);
    if indexable(all, room, index_a.len(), index_b.len()) {
        index_groups(
            index_a,
            grouped.matches.lefts,
            grouped.matches.rights,
            grouped.groups,
            grouped.count,
        );
        index_groups(
            index_b,
            grouped.matches.other_lefts,
            grouped.matches.other_rights,
            grouped.groups,
            grouped.count,
        );
        return drive(
            grouped,
            index_a,
            index_b,
            work,
            book_a,
            book_b,
            Ok(first),
            capacity,
        );
    }
    drive(grouped, &[], &[], work, book_a, book_b, Ok(first), capacity)
}

// All cuts, in the sets of the two shelves. Most scripts are done after the first turns.
pub fn close(
    grouped: &GroupedMatches<'_>,
    mark_tracks: &[u8],
    mark_positions: &[u32],
    index_a: &mut [u32],
    index_b: &mut [u32],
    work: &mut [u32],
    book_a: &mut [usize],
    book_b: &mut [usize],
    capacity: usize,
) -> Result<(), TooMany>
    requires mark_tracks_len { length mark_tracks.now ≡ length mark_positions.now }
    requires sets_bound { grouped.now.sets ≤ 16 }
    requires book_a_len { length book_a.old ≡ 8 * grouped.now.sets }
    requires book_b_len { length book_b.old ≡ 8 * grouped.now.sets }
    requires capacity_in_bounds { 4 * capacity ≤ length work.old }
    ensures { Closure (tracked_in grouped.now (marks_of mark_tracks.now mark_positions.now)) grouped.now.sets capacity
        work.new (books_of book_a.new book_b.new) result }
{
    match begin(
        grouped,
        mark_tracks,
        mark_positions,
        work,
        book_a,
        book_b,
        capacity,
    )? {
        Closing::Done => Ok(()),
        first => go_on(
            grouped,
            mark_tracks,
            mark_positions,
            index_a,
            index_b,
            work,
            book_a,
            book_b,
            first,
            capacity,
        ),
    }
}
