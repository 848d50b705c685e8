// Carrying the newly found cuts of one set over matches that join the same two tracks, into a set of a shelf. Where that
// is full, sets slide, and it is carried once more: what is there already is a member again.
#![tactic(auto)]

ghost use Rattle.std.specs.Prelude.{◌≡◌, true, ◌≤◌, ◌<◌};
ghost use Rattle.match_columns.specs.Held.{columns_in};
ghost use Rattle.carrying_cuts.specs.Worker.{EndsKnown};
ghost use Rattle.turning.specs.Turning.{Usable};
ghost use Rattle.shelf.specs.Shelf.{set_at, Shelf};
ghost use Rattle.carrying_group.specs.Group.{Clear, Grouping};
ghost use Rattle.carrying_group.specs.Trying.{Trying};

use carrying_match::{Held, Stop};
use cut_set::CutSet;
use match_columns::MatchColumns;
use shelf::{load, save};
use sliding::make_room;
use turning::carry_new;

// There are too many cuts for any table lent.
#[derive(Clone, Copy)]
pub struct TooMany;

// Why one try did not carry all: the set is full and a number is missing, or there are too many.
#[derive(Clone, Copy)]
enum Halt {
    Crowded,
    TooMany,
}

// Carries the newly found cuts of `from` into the set number j, where that stands.
fn try_group(
    matches: &MatchColumns<'_>,
    index: &[u32],
    work: &mut [u32],
    book: &mut [usize],
    from: CutSet,
    sets: usize,
    lo: usize,
    hi: usize,
    j: usize,
    hits: usize,
    most: usize,
    ended: bool,
) -> Result<usize, Halt>
    requires usable { Usable index.now matches.now.lefts.now matches.now.rights.now }
    requires shelf { Shelf work.old book.old sets lo hi }
    requires clear { Clear work.old from lo hi }
    requires j_lt_sets { j < sets }
    requires hits_le_most { hits ≤ most }
    requires ends_known { ended ≡ true → EndsKnown (columns_in matches.now) work.old (set_at book.old j) }
    ensures { Trying (columns_in matches.now) from sets lo hi j work.old book.old hits most work.new book.new result }
{
    match carry_new(matches, index, work, from, load(book, j), hits, most, ended) {
        Ok(Held { hits: count, to }) => {
            save(book, j, to);
            Ok(count)
        }
        Err(Stop::Full { to: full }) => {
            save(book, j, full);
            Err(Halt::Crowded)
        }
        Err(Stop::TooMany) => Err(Halt::TooMany),
    }
}

// Carries the newly found cuts of `from` into the set number j of the shelf in the places [lo, hi).
pub fn carry_group(
    matches: &MatchColumns<'_>,
    index: &[u32],
    work: &mut [u32],
    book: &mut [usize],
    from: CutSet,
    sets: usize,
    lo: usize,
    hi: usize,
    j: usize,
    hits: usize,
    most: usize,
    ended: bool,
) -> Result<usize, TooMany>
    requires usable { Usable index.now matches.now.lefts.now matches.now.rights.now }
    requires shelf { Shelf work.old book.old sets lo hi }
    requires clear { Clear work.old from lo hi }
    requires j_lt_sets { j < sets }
    requires hits_le_most { hits ≤ most }
    requires ends_known { ended ≡ true → EndsKnown (columns_in matches.now) work.old (set_at book.old j) }
    ensures { Grouping (columns_in matches.now) from sets lo hi j work.old book.old hits most work.new book.new result }
{
    loop {
        match try_group(
            matches, index, work, book, from, sets, lo, hi, j, hits, most, ended,
        ) {
            Ok(count) => return Ok(count),
            Err(Halt::TooMany) => return Err(TooMany),
            Err(Halt::Crowded) => {
                if !make_room(work, book, sets, lo, hi, j) {
                    return Err(TooMany);
                }
            }
        }
    }
}
