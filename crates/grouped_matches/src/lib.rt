// Matches in groups that join the same two tracks, as the closure takes cuts over them and along them.
#![tactic(auto)]

ghost use Rattle.std.specs.Prelude.{◌≡◌, ◌≤◌, false, length, replicate};
ghost use Rattle.tracks.specs.Groups.{Groups};

use match_columns::MatchColumns;

// The matches, a lent `false` for each of them, and the groups: so many of them, whose tracks have one of so many sets.
#[derive(Clone, Copy)]
pub struct GroupedMatches<'a> {
    pub matches: MatchColumns<'a>,
    pub straight: &'a [bool],
    pub groups: &'a [usize],
    pub count: usize,
    pub sets: usize,
    // A match's index has a number of 32 bits.
    ghost few: { length matches.reversed.now ≤ 4294967296 },
    // Along itself no match is reversed.
    ghost straight_is: { straight.now ≡ replicate (length matches.reversed.now) false },
    // The groups follow each other up to the last match, and their tracks have a set.
    ghost follow: { Groups groups.now count (length matches.reversed.now) sets },
}

impl<'a> GroupedMatches<'a> {
    // The same matches, carried from the other side. Their groups are the same.
    pub fn turned(&self) -> GroupedMatches<'a>
        ensures lefts { result.matches.lefts.now ≡ self.now.matches.other_lefts.now }
        ensures rights { result.matches.rights.now ≡ self.now.matches.other_rights.now }
        ensures other_lefts { result.matches.other_lefts.now ≡ self.now.matches.lefts.now }
        ensures other_rights { result.matches.other_rights.now ≡ self.now.matches.rights.now }
        ensures reversed { result.matches.reversed.now ≡ self.now.matches.reversed.now }
        ensures groups { result.groups.now ≡ self.now.groups.now }
        ensures count { result.count ≡ self.now.count }
        ensures sets { result.sets ≡ self.now.sets }
    {
        GroupedMatches {
            matches: self.matches.turned(),
            straight: self.straight,
            groups: self.groups,
            count: self.count,
            sets: self.sets,
        }
    }
}
