// The newly found cuts of one set are carried over matches to another set, cut by cut or match by match.
#![tactic(auto)]

ghost use Rattle.std.specs.Prelude.{◌≡◌, true, ◌≤◌, length};
ghost use Rattle.cut_set.specs.Store.{Good, NothingAdded, FoundRun, found_in};
ghost use Rattle.match_columns.specs.Held.{columns_in};
ghost use Rattle.carrying_match.specs.OneMatch.{Ready};
ghost use Rattle.carrying_cuts.specs.Worker.{EndsKnown, Working};
ghost use Rattle.counting_hits.specs.Counting.{MoreHits};
ghost use Rattle.turning.specs.Turning.{Usable};

use carrying_cuts::carry_found;
use carrying_few::carry_few;
use carrying_match::{Held, Stop};
use counting_hits::exceed;
use cut_set::CutSet;
use match_columns::MatchColumns;

// So many matches to a newly found cut make it worthwhile to go cut by cut.
const MATCHES_TO_A_CUT: usize = 4;

// Each so manyth match is looked at for whether there are so many more hits than allowed that counting them pays.
const SAMPLED: usize = 32;

const SURELY: usize = 16;

// Whether there are more hits than `room`, counted before anything is carried if it seems so.
fn too_many(lefts: &[u32], rights: &[u32], work: &[u32], from: CutSet, room: usize) -> bool
    requires lefts_len { length lefts.now ≡ length rights.now }
    requires good { Good work.now from }
    requires found_run { FoundRun work.now from }
    ensures { result ≡ true → MoreHits lefts.now rights.now (found_in work.now from) room }
{
    let cuts = reading_cuts::count_found(from);
    SAMPLED <= lefts.len()
        && 0 < cuts
        && room / cuts < lefts.len()
        && exceed(lefts, rights, work, from, SAMPLED, room / SURELY)
        && exceed(lefts, rights, work, from, 1, room)
}

// Carries the newly found cuts: cut by cut where there are few of them and there is an index, and else match by match.
pub fn carry_new(
    matches: &MatchColumns<'_>,
    index: &[u32],
    work: &mut [u32],
    from: CutSet,
    to: CutSet,
    hits: usize,
    most: usize,
    ended: bool,
) -> Result<Held, Stop>
    requires usable { Usable index.now matches.now.lefts.now matches.now.rights.now }
    requires ready { Ready work.old from to }
    requires nothing_added { NothingAdded from }
    requires hits_le_most { hits ≤ most }
    requires ends_known { ended ≡ true → EndsKnown (columns_in matches.now) work.old to }
    ensures { Working (columns_in matches.now) (length matches.now.reversed.now) work.old from to
        (found_in work.old from) hits most work.new result }
{
    let few = matches.lefts.len() / MATCHES_TO_A_CUT;
    if !index.is_empty() && reading_cuts::count_found(from) <= few {
        return carry_few(matches, index, work, from, to, hits, most);
    }
    if too_many(matches.lefts, matches.rights, work, from, most - hits) {
        return Err(Stop::TooMany);
    }
    carry_found(matches, work, from, to, hits, most, ended)
}
