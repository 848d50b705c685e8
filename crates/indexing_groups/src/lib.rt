// Making an index of the matches of each group.
#![tactic(auto)]

ghost use Rattle.std.specs.Prelude.{◌≡◌, ◌≤◌, length};
ghost use Rattle.arrangement.specs.Index.{index_room};
ghost use Rattle.carrying_lane.specs.Parts.{UsableParts};
ghost use Rattle.indexing_groups.specs.Parts.{AnyGroups, IndexedPart};

use indexing::{index_room, make_index};

// Makes the index of the matches from number `start` up to `end`, behind the places of those before them.
fn index_group(index: &mut [u32], lefts: &[u32], rights: &[u32], start: usize, end: usize)
    requires lefts_len { length lefts.now ≡ length rights.now }
    requires lefts_len_bound { length lefts.now ≤ 4294967296 }
    requires start_le_end { start ≤ end }
    requires end_in_bounds { end ≤ length lefts.now }
    requires lefts_in_bounds { index_room (length lefts.now) ≤ length index.old }
    ensures { IndexedPart index.old start end lefts.now rights.now index.new }
{
    let low = index_room(start);
    let high = index_room(end);
    make_index(
        &mut index[low..high],
        &lefts[start..end],
        &rights[start..end],
    );
}

// Makes an index of the matches of each group, one behind the other.
pub fn index_groups(
    index: &mut [u32],
    lefts: &[u32],
    rights: &[u32],
    groups: &[usize],
    count: usize,
)
    requires lefts_len { length lefts.now ≡ length rights.now }
    requires lefts_len_bound { length lefts.now ≤ 4294967296 }
    requires any_groups { AnyGroups groups.now count (length lefts.now) }
    requires lefts_in_bounds { index_room (length lefts.now) ≤ length index.old }
    ensures { UsableParts index.new groups.now count lefts.now rights.now }
{
    for g in 0..count {
        let at = 3 * g;
        index_group(index, lefts, rights, groups[at], groups[at + 3]);
    }
}
