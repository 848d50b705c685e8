// Looking through the index of the matches for those that may span a position.
#![tactic(auto)]

ghost use Rattle.std.specs.Prelude.{◌+◌, ◌≤◌, length};
ghost use Rattle.arrangement.specs.Index.{ends_at, level_room, index_room, Levels};
ghost use Rattle.near_blocks.specs.Places.{Short, PassedPlaces};

use arrangement::{BLOCK, block_start, blocks_of};

// The next of the numbers from place `at` on, from number k up to `end`, that is x or more. There are few: 16 at most.
fn next_high(index: &[u32], at: usize, end: usize, k: usize, x: u32) -> usize
    requires end_in_bounds { at + end ≤ length index.now }
    requires k_le_end { k ≤ end }
    ensures { Short index.now at end x k result }
{
    for near in k..end {
        if x <= index[at + near] {
            return near;
        }
    }
    end
}

// The next number of a level, from number k on, that is x or more. What is left of k's block is looked at, and then the
// level above tells which block has one.
fn next_reach(index: &[u32], at: usize, count: usize, k: usize, x: u32) -> usize
    requires count_in_bounds { at + level_room count ≤ length index.now }
    requires levels { Levels index.now at count }
    requires k_le_count { k ≤ count }
    ensures { Short index.now at count x k result }
{
    if count <= BLOCK {
        return next_high(index, at, count, k, x);
    }
    let behind = blocks_of(k);
    let end = block_start(behind, count);
    let near = next_high(index, at, end, k, x);
    if near < end {
        return near;
    }
    let block = next_reach(index, at + count, blocks_of(count), behind, x);
    let start = block_start(block, count);
    let last = block_start(block + 1, count);
    next_high(index, at, last, start, x)
}

// The next place of the order of n matches, from place k on, whose match may span x: none is passed over that does. If
// one begins behind x, so do all that follow. The match at place k is looked at first: those that span x often stand
// together.
pub fn next_place(index: &[u32], n: usize, k: usize, x: u32) -> usize
    requires n_in_bounds { index_room n ≤ length index.now }
    requires levels { Levels index.now (ends_at n) n }
    requires k_le_n { k ≤ n }
    ensures { PassedPlaces index.now n x k result }
{
    if k == n {
        return k;
    }
    if x < index[n + k] {
        return n;
    }
    if x <= index[n + n + k] {
        return k;
    }
    let near = next_reach(index, n + n, n, k, x);
    if near == n {
        return near;
    }
    if x < index[n + near] {
        return n;
    }
    near
}
