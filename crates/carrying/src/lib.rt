// The way over one match of a script, and one position carried over it.
#![tactic(auto)]

ghost use Rattle.std.specs.Prelude.{◌≡◌};
ghost use Rattle.script.specs.Reading.{read_script};
ghost use Rattle.script.specs.Finding.{finding_of};
ghost use Rattle.refining.specs.Carrying.{carrying_of, carried_answer, CarryingDemand};
ghost use Rattle.carrying.specs.Ways.{crossing_of};

use refinement::Side;
use script::Refusal;

// The ends of a match on the side that positions come from, and on the side that they are carried to.
#[derive(Clone, Copy)]
pub struct Way {
    pub from: u32,
    pub from_right: u32,
    pub to: u32,
    pub to_right: u32,
    pub reversed: bool,
}

// The way over the match of this number, from the side named. Its right ends are worked out once, for any positions.
pub fn find_way(script: &[u8], number: u32, side: Side) -> Result<Way, Refusal>
    ensures { result ≡ crossing_of (finding_of (read_script script.now) number) side }
{
    let found = reader::find::find_match(script, number)?;
    let from = refinement::on_side(side, found.left_a, found.left_b);
    let to = refinement::on_side(refinement::opposite(side), found.left_a, found.left_b);
    let from_right = from + found.length;
    let to_right = to + found.length;
    Ok(Way {
        from,
        from_right,
        to,
        to_right,
        reversed: found.reversed,
    })
}

// Where the match of this number carries the position to, from the side named.
pub fn carry(script: &[u8], number: u32, side: Side, position: u32) -> Result<u32, Refusal>
    ensures value { result ≡ carrying_of script.now number side position }
    ensures carrying_demand { CarryingDemand script.now number side position (carried_answer result) }
{
    let way = find_way(script, number, side)?;
    if refinement::spans(way.from, way.from_right, position) {
        Ok(refinement::carry(way.from, way.to, way.to_right, way.reversed, position))
    } else {
        Err(Refusal::OffTheMatch)
    }
}
