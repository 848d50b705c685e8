// Passing over matches that do not reach into the stretch from the lowest to the highest newly found cut.
#![tactic(auto)]

ghost use Rattle.std.specs.Prelude.{◌≡◌, false, ◌+◌, ◌≤◌, length};
ghost use Rattle.near_matches.specs.Near.{reaching, Passable};

// Whether the span of a match reaches into the stretch from lowest to highest. It adds nothing, and has no branch.
fn reaches(left: u32, right: u32, lowest: u32, highest: u32) -> bool
    ensures { result ≡ reaching left right lowest highest }
{
    (left <= highest) & (lowest <= right)
}

// Whether one of 32 matches from index k on reaches into the stretch. All are looked at, several at a time once it is
// compiled.
fn any_near(lefts: &[u32], rights: &[u32], k: usize, lowest: u32, highest: u32) -> bool
    requires lefts_len { length lefts.now ≡ length rights.now }
    requires k_in_bounds { k + 32 ≤ length lefts.now }
    ensures { result ≡ false → Passable lefts.now rights.now lowest highest k (k + 32) }
{
    let mut any = false;
    for at in k..k + 32 {
        any |= reaches(lefts[at], rights[at], lowest, highest);
    }
    any
}

// Passes over matches from index k on, 32 at a time, while none of them reaches into the stretch.
fn pass_many(lefts: &[u32], rights: &[u32], k: usize, lowest: u32, highest: u32) -> usize
    requires lefts_len { length lefts.now ≡ length rights.now }
    requires k_in_bounds { k ≤ length lefts.now }
    ensures { Passable lefts.now rights.now lowest highest k result }
{
    let mut at = k;
    // Not a `for`: it goes on by 32 matches.
    while 32 <= lefts.len() - at && !any_near(lefts, rights, at, lowest, highest) {
        at += 32;
    }
    at
}

// The next match from index k on that reaches into the stretch from lowest to highest. One that does not reach there
// spans no cut of it. Where a step found few cuts, most matches are such: it pays to pass over them here.
pub fn next_near(lefts: &[u32], rights: &[u32], k: usize, lowest: u32, highest: u32) -> usize
    requires lefts_len { length lefts.now ≡ length rights.now }
    requires k_in_bounds { k ≤ length lefts.now }
    ensures { Passable lefts.now rights.now lowest highest k result }
{
    if k == lefts.len() || reaches(lefts[k], rights[k], lowest, highest) {
        return k;
    }
    let passed = pass_many(lefts, rights, k, lowest, highest);
    for near in passed..lefts.len() {
        if reaches(lefts[near], rights[near], lowest, highest) {
            return near;
        }
    }
    lefts.len()
}
