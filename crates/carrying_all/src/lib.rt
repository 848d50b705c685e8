// A list of positions carried over one match of a script: all of them are tested before the first is written.
#![tactic(auto)]

ghost use Rattle.std.specs.Prelude.{◌+◌, ◌-◌, ◌≡◌, true, map, length};
ghost use Rattle.refinement.specs.Match.{between, carry_to};
ghost use Rattle.positions.specs.CarryingAll.{every, carrying_all_of};
ghost use Rattle.positions.specs.Demands.{carried_all_answer, CarryingAllDemand};

use carrying::Way;
use refinement::Side;
use script::Refusal;

// Positions are tested so many at a time.
const BLOCK: usize = 64;

// Whether a match spans each of the positions, on the side where these are its ends. All are tested, whatever comes of
// the first ones, so that several can be tested at once.
fn spans_block(left: u32, right: u32, positions: &[u32]) -> bool
    ensures { result ≡ every (between left right) positions.now }
{
    let mut all = true;
    for position in positions {
        all &= refinement::spans(left, right, *position);
    }
    all
}

// The same, block by block up to the first one with a position off the match. Not `chunks`, by which the compiler doesn't
// know how long a block is: a list then takes up to 1.2 times the instructions.
fn spans_all(left: u32, right: u32, positions: &[u32]) -> bool
    ensures { result ≡ every (between left right) positions.now }
{
    let blocks = positions.chunks_exact(BLOCK);
    let rest = blocks.remainder();
    for block in blocks {
        if !spans_block(left, right, block) {
            return false;
        }
    }
    spans_block(left, right, rest)
}

// Writes where the way leads each of the positions, all of which are on it.
fn carry_each(way: Way, positions: &[u32], carried: &mut [u32])
    requires from_value { way.to + (way.from_right - way.from) ≡ way.to_right }
    requires positions_value { every (between way.from way.from_right) positions.now ≡ true }
    requires positions_len { length positions.now ≡ length carried.old }
    ensures { carried.new
        ≡ map (carry_to way.reversed way.from way.to way.to_right) positions.now }
{
    // By index: a proof knows no element that a zip with `iter_mut` wrote.
    for (k, position) in positions.iter().enumerate() {
        carried[k] = refinement::carry(way.from, way.to, way.to_right, way.reversed, *position);
    }
}

// Carries the positions, from the side named, over the match of this number into the lent buffer.
pub fn carry_all(
    script: &[u8],
    number: u32,
    side: Side,
    positions: &[u32],
    carried: &mut [u32],
) -> Result<(), Refusal>
    ensures value { result ≡ (carrying_all_of script.now number side positions.now carried.old).reply }
    ensures carried_after { carried.new
        ≡ (carrying_all_of script.now number side positions.now carried.old).carried }
    ensures carrying_all_demand { CarryingAllDemand script.now number side positions.now carried.old
        (carried_all_answer result carried.new) carried.new }
{
    let way = carrying::find_way(script, number, side)?;
    if positions.len() != carried.len() {
        return Err(Refusal::CountsDiffer);
    }
    if !spans_all(way.from, way.from_right, positions) {
        return Err(Refusal::OffTheMatch);
    }
    carry_each(way, positions, carried);
    Ok(())
}
