// Carrying the newly found cuts of one side over one match to the other.
#![tactic(auto)]

ghost use Rattle.std.specs.Prelude.{◌≡◌, true, ◌⊎◌, ◌+◌, ◌-◌, ◌≤◌};
ghost use Rattle.cut_set.specs.Store.{Found, FoundRun, found_in};
ghost use Rattle.carrying_match.specs.OneMatch.{Ready, EndsIn, ImageBy, hits_on, Carrying};

use cut_set::{Added, CutSet};

// The hits so far and the set that images went to. The hits stand first: right behind the answer's tag a set would be
// copied from odd places, which is slow.
#[derive(Drop)]
pub struct Held {
    pub hits: usize,
    pub to: CutSet,
}

// Why the work stopped: that set has no place for one more image, and the work can be done again once it has; or there
// are more hits than any table lent has room for.
#[derive(Drop)]
pub enum Stop {
    Full { to: CutSet },
    TooMany,
}

// Whether the image of a cut is known before it is carried: the cut is an end of the match, and the ends on the other
// side are members (`ended`).
fn is_known(left: u32, right: u32, cut: u32, ended: bool) -> bool
    ensures { result ≡ true → (ended ≡ true) × ((cut ≡ left) ⊎ (cut ≡ right)) }
{
    ended && (cut == left || cut == right)
}

// Carries the newly found cuts that one match spans: they follow each other in the run. The match is given by its ends
// on the two sides, which are equally far apart. If its ends there are members already (`ended`), its own ends need not
// be carried: they are most of the hits of a script whose matches hardly overlap. The hits are tested before they are
// counted: they never pass `most`.
pub fn carry_match(
    work: &mut [u32],
    from: CutSet,
    to: CutSet,
    left: u32,
    right: u32,
    other_left: u32,
    other_right: u32,
    reversed: bool,
    hits: usize,
    most: usize,
    ended: bool,
) -> Result<Held, Stop>
    requires ready { Ready work.old from to }
    requires found_run { FoundRun work.old from }
    requires left_value { other_left + (right - left) ≡ other_right }
    requires hits_le_most { hits ≤ most }
    requires ends_in { ended ≡ true → EndsIn work.old to other_left other_right }
    ensures { Carrying (ImageBy left right other_left other_right reversed (Found work.old from))
        (hits_on left right (found_in work.old from)) work.old to hits most
        work.new result }
{
    let end = reading_cuts::found_end(from);
    let first = cut_set::first_found(work, from, left);
    let mut set = to;
    let mut count = hits;
    for at in first..end {
        let cut = reading_cuts::found_at(work, from, at);
        if !refinement::spans(left, right, cut) {
            break;
        }
        if count == most {
            return Err(Stop::TooMany);
        }
        let image = refinement::carry(left, other_left, other_right, reversed, cut);
        count += 1;
        if is_known(left, right, cut, ended) {
            continue;
        }
        if cut_set::has_room(set) {
            set = cut_set::append(work, set, image);
            continue;
        }
        match cut_set::add(work, set, image) {
            Added::Held(s) => set = s,
            Added::Full(s) => return Err(Stop::Full { to: s }),
        }
    }
    Ok(Held {
        hits: count,
        to: set,
    })
}
