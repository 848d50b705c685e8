// Making the index of the matches by their ends on one side.
#![tactic(auto)]

ghost use Rattle.std.specs.Prelude.{◌≡◌, ◌+◌, ◌<◌, ◌≤◌, length};
ghost use Rattle.arrangement.specs.Index.{level_room, index_room, Indexed};
ghost use Rattle.indexing.specs.Bounds.{Bounding, Arranged, Listed, Overlaid, Raised};

use arrangement::{BLOCK, block_start, blocks_of};
use arranging::arrange;

// How many places an index of n matches takes.
pub fn index_room(n: usize) -> usize
    requires { n ≤ 4294967296 }
    ensures { result ≡ index_room n }
{
    n + n + n + n / 8
}

// Lists the ends of the matches in their order, from the last one back. What is listed as a match's left end is the
// lowest from it on: its own, as the matches are arranged by them.
fn list_ends(index: &mut [u32], lefts: &[u32], rights: &[u32])
    requires { Arranged index.old lefts.now rights.now }
    ensures { Listed index.new lefts.now rights.now }
{
    let n = lefts.len();
    let mut low = u32::MAX;
    for k in (0..n).rev() {
        let m = index[k] as usize;
        low = low.min(lefts[m]);
        index[n + k] = low;
        index[n + n + k] = rights[m];
    }
}

// A number that none at the places [first, last) exceeds: the highest of them.
fn highest(index: &[u32], first: usize, last: usize) -> u32
    requires first_le_last { first ≤ last }
    requires last_in_bounds { last ≤ length index.now }
    ensures { Bounding index.now first last result }
{
    index[first..last].iter().copied().max().unwrap_or(0)
}

// Makes the level above one of so many numbers.
fn overlay(index: &mut [u32], at: usize, count: usize)
    requires count_in_bounds { at + level_room count ≤ length index.old }
    requires lt_count { 16 < count }
    ensures { Overlaid index.old at count index.new }
{
    let above = at + count;
    for b in 0..blocks_of(count) {
        let first = at + block_start(b, count);
        let last = at + block_start(b + 1, count);
        let high = highest(index, first, last);
        index[above + b] = high;
    }
}

// Makes all levels above one of so many numbers.
fn raise(index: &mut [u32], at: usize, count: usize)
    requires { at + level_room count ≤ length index.old }
    ensures { Raised index.old at count index.new }
{
    if count <= BLOCK {
        return;
    }
    overlay(index, at, count);
    raise(index, at + count, blocks_of(count));
}

// Makes the index of the matches with these left and right ends.
pub fn make_index(index: &mut [u32], lefts: &[u32], rights: &[u32])
    requires lefts_len { length lefts.now ≡ length rights.now }
    requires lefts_len_bound { length lefts.now ≤ 4294967296 }
    requires lefts_in_bounds { index_room (length lefts.now) ≤ length index.old }
    ensures { Indexed index.new lefts.now rights.now }
{
    let n = lefts.len();
    arrange(&mut index[..n], lefts);
    list_ends(index, lefts, rights);
    raise(index, n + n, n);
}
