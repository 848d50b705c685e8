// Carrying a few newly found cuts of one side over the matches to the other, cut by cut: the index of the matches tells
// which of them may span a cut.
#![tactic(auto)]

ghost use Rattle.std.specs.Prelude.{[], ◌∷◌, ◌≡◌, ◌≤◌, ◌<◌, length};
ghost use Rattle.cut_set.specs.Store.{Good, FoundRun, found_in};
ghost use Rattle.match_columns.specs.Held.{columns_in};
ghost use Rattle.arrangement.specs.Index.{Indexed};
ghost use Rattle.carrying_match.specs.OneMatch.{Ready, Carrying};
ghost use Rattle.carrying_cuts.specs.Worker.{Image, Images, hits_over, Working};
ghost use Rattle.carrying_few.specs.Hit.{hit_on};

use carrying_match::{Held, Stop};
use cut_set::{Added, CutSet};
use match_columns::MatchColumns;
use near_blocks::next_place;

// Carries a cut over match m, if that spans it.
fn carry_over(
    matches: &MatchColumns<'_>,
    m: usize,
    work: &mut [u32],
    to: CutSet,
    cut: u32,
    hits: usize,
    most: usize,
) -> Result<Held, Stop>
    requires m_in_bounds { m < length matches.now.reversed.now }
    requires good { Good work.old to }
    requires hits_le_most { hits ≤ most }
    ensures { Carrying (Image (columns_in matches.now) m cut) (hit_on (columns_in matches.now) cut m)
        work.old to hits most work.new result }
{
    let left = matches.lefts[m];
    if !refinement::spans(left, matches.rights[m], cut) {
        return Ok(Held { hits, to });
    }
    if hits == most {
        return Err(Stop::TooMany);
    }
    let image = refinement::carry(
        left,
        matches.other_lefts[m],
        matches.other_rights[m],
        matches.reversed[m],
        cut,
    );
    match cut_set::add(work, to, image) {
        Added::Held(to) => Ok(Held { hits: hits + 1, to }),
        Added::Full(to) => Err(Stop::Full { to }),
    }
}

// Carries a cut over every match that spans it.
fn carry_cut(
    matches: &MatchColumns<'_>,
    index: &[u32],
    work: &mut [u32],
    to: CutSet,
    cut: u32,
    hits: usize,
    most: usize,
) -> Result<Held, Stop>
    requires indexed { Indexed index.now matches.now.lefts.now matches.now.rights.now }
    requires good { Good work.old to }
    requires hits_le_most { hits ≤ most }
    ensures { Carrying (Images (columns_in matches.now) (length matches.now.reversed.now) (λ z. z ≡ cut))
        (hits_over (columns_in matches.now) (length matches.now.reversed.now) (cut ∷ []))
        work.old to hits most work.new result }
{
    let n = matches.lefts.len();
    let mut held = Held { hits, to };
    let mut k = next_place(index, n, 0, cut);
    // Not a `for`: the search tells which place is next.
    while k < n {
        held = carry_over(
            matches,
            index[k] as usize,
            work,
            held.to,
            cut,
            held.hits,
            most,
        )?;
        k = next_place(index, n, k + 1, cut);
    }
    Ok(held)
}

// Carries the newly found cuts, one rising run, over every match that spans them.
pub fn carry_few(
    matches: &MatchColumns<'_>,
    index: &[u32],
    work: &mut [u32],
    from: CutSet,
    to: CutSet,
    hits: usize,
    most: usize,
) -> Result<Held, Stop>
    requires indexed { Indexed index.now matches.now.lefts.now matches.now.rights.now }
    requires ready { Ready work.old from to }
    requires found_run { FoundRun work.old from }
    requires hits_le_most { hits ≤ most }
    ensures { Working (columns_in matches.now) (length matches.now.reversed.now) work.old from to
        (found_in work.old from) hits most work.new result }
{
    let mut held = Held { hits, to };
    for at in reading_cuts::found_start(from)..reading_cuts::found_end(from) {
        let cut = reading_cuts::found_at(work, from, at);
        held = carry_cut(matches, index, work, held.to, cut, held.hits, most)?;
    }
    Ok(held)
}
