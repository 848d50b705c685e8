// Carrying the newly found cuts of one side over the matches to the other, match by match.
#![tactic(auto)]

ghost use Rattle.std.specs.Prelude.{◌≡◌, true, ◌≤◌, length};
ghost use Rattle.cut_set.specs.Store.{FoundRun, found_in};
ghost use Rattle.match_columns.specs.Held.{columns_in};
ghost use Rattle.carrying_match.specs.OneMatch.{Ready};
ghost use Rattle.carrying_cuts.specs.Worker.{EndsKnown, Working};

use carrying_match::{Held, Stop, carry_match};
use cut_set::CutSet;
use match_columns::MatchColumns;
use near_matches::next_near;

// Carries the newly found cuts, one rising run, over every match. `ended`: the ends of all matches on the other side are
// members of the set there.
pub fn carry_found(
    matches: &MatchColumns<'_>,
    work: &mut [u32],
    from: CutSet,
    to: CutSet,
    hits: usize,
    most: usize,
    ended: bool,
) -> Result<Held, Stop>
    requires ready { Ready work.old from to }
    requires found_run { FoundRun work.old from }
    requires hits_le_most { hits ≤ most }
    requires ends_known { ended ≡ true → EndsKnown (columns_in matches.now) work.old to }
    ensures { Working (columns_in matches.now) (length matches.now.reversed.now) work.old from to
        (found_in work.old from) hits most work.new result }
{
    let mut held = Held { hits, to };
    if reading_cuts::none_found(from) {
        return Ok(held);
    }
    let lowest = reading_cuts::lowest_found(work, from);
    let highest = reading_cuts::highest_found(work, from);
    let mut k = next_near(matches.lefts, matches.rights, 0, lowest, highest);
    // Not a `for`: the search tells which match is next.
    while k < matches.reversed.len() {
        held = carry_match(
            work,
            from,
            held.to,
            matches.lefts[k],
            matches.rights[k],
            matches.other_lefts[k],
            matches.other_rights[k],
            matches.reversed[k],
            held.hits,
            most,
            ended,
        )?;
        k = next_near(matches.lefts, matches.rights, k + 1, lowest, highest);
    }
    Ok(held)
}
