// The leaves of refining: whether a match spans a position, and where it carries it. Both are given the ends of the
// match, and know of no length: `spans` adds nothing, and `carry` adds only what stays on the match.
#![tactic(auto)]

ghost use Rattle.std.specs.Prelude.{◌≡◌, ◌+◌, ◌-◌, ◌≤◌};
ghost use Rattle.refinement.specs.Match.{other, on_side, between, AnswerKept, carry_to};

// SCOPE, "Sides": a choice of two.
#[derive(Clone, Copy)]
pub enum Side {
    A,
    B,
}

pub fn opposite(side: Side) -> Side
    ensures { result ≡ other side }
{
    match side {
        Side::A => Side::B,
        Side::B => Side::A,
    }
}

// Of two numbers, one for A and one for B, the one for the side.
pub fn on_side(side: Side, a: u32, b: u32) -> u32
    ensures { result ≡ on_side side a b }
{
    match side {
        Side::A => a,
        Side::B => b,
    }
}

// Whether a match spans the position, its two ends included, on the side where these are its ends.
pub fn spans(left: u32, right: u32, position: u32) -> bool
    ensures test { result ≡ between left right position }
    ensures kept { AnswerKept left right position result }
{
    (left <= position) & (position <= right)
}

// Where a match carries the position to: from the side where its left end is `from` to the one where its ends are `to`
// and `to_right`.
pub fn carry(from: u32, to: u32, to_right: u32, reversed: bool, position: u32) -> u32
    requires from_le_position { from ≤ position }
    requires from_bound { to + (position - from) ≤ to_right }
    ensures { result ≡ carry_to reversed from to to_right position }
{
    let past = position - from;
    if reversed { to_right - past } else { to + past }
}
