// The matches as the code carries cuts over them, a lent column for each of their numbers.
#![tactic(auto)]

ghost use Rattle.std.specs.Prelude.{◌≡◌, ◌≤◌, false, length, replicate, slice_range};
ghost use Rattle.refining.specs.Columns.{columns_of, Fit};

// Left and right ends on the side that is carried from, the same on the other side, and whether a match is reversed.
#[derive(Clone, Copy)]
pub struct MatchColumns<'a> {
    pub lefts: &'a [u32],
    pub rights: &'a [u32],
    pub other_lefts: &'a [u32],
    pub other_rights: &'a [u32],
    pub reversed: &'a [bool],
    // They are equally long, and every match has a letter and right ends that are left plus length.
    ghost fit: { Fit (columns_of lefts.now rights.now other_lefts.now other_rights.now reversed.now) },
}

impl<'a> MatchColumns<'a> {
    // The matches from number `start` on up to `end`.
    pub fn part(&self, start: usize, end: usize) -> MatchColumns<'a>
        requires start_bound { start ≤ end }
        requires end_in_bounds { end ≤ length self.now.reversed.now }
        ensures lefts { result.lefts.now ≡ slice_range self.now.lefts.now start end }
        ensures rights { result.rights.now ≡ slice_range self.now.rights.now start end }
        ensures other_lefts { result.other_lefts.now ≡ slice_range self.now.other_lefts.now start end }
        ensures other_rights { result.other_rights.now ≡ slice_range self.now.other_rights.now start end }
        ensures reversed { result.reversed.now ≡ slice_range self.now.reversed.now start end }
    {
        MatchColumns {
            lefts: &self.lefts[start..end],
            rights: &self.rights[start..end],
            other_lefts: &self.other_lefts[start..end],
            other_rights: &self.other_rights[start..end],
            reversed: &self.reversed[start..end],
        }
    }

    // The same matches, carried from the other side.
    pub fn turned(&self) -> MatchColumns<'a>
        ensures lefts { result.lefts.now ≡ self.now.other_lefts.now }
        ensures rights { result.rights.now ≡ self.now.other_rights.now }
        ensures other_lefts { result.other_lefts.now ≡ self.now.lefts.now }
        ensures other_rights { result.other_rights.now ≡ self.now.rights.now }
        ensures reversed { result.reversed.now ≡ self.now.reversed.now }
    {
        MatchColumns {
            lefts: self.other_lefts,
            rights: self.other_rights,
            other_lefts: self.lefts,
            other_rights: self.rights,
            reversed: self.reversed,
        }
    }

    // The same matches, carried from the other side along itself: every position stays. `straight` says so of each.
    pub fn along(&self, straight: &'a [bool]) -> MatchColumns<'a>
        requires { straight.now ≡ replicate (length self.now.reversed.now) false }
        ensures lefts { result.lefts.now ≡ self.now.other_lefts.now }
        ensures rights { result.rights.now ≡ self.now.other_rights.now }
        ensures other_lefts { result.other_lefts.now ≡ self.now.other_lefts.now }
        ensures other_rights { result.other_rights.now ≡ self.now.other_rights.now }
        ensures reversed { result.reversed.now ≡ straight.now }
    {
        MatchColumns {
            lefts: self.other_lefts,
            rights: self.other_rights,
            other_lefts: self.other_lefts,
            other_rights: self.other_rights,
            reversed: straight,
        }
    }
}
