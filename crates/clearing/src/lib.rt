// A lent buffer set to zero.
#![tactic(auto)]

ghost use Rattle.std.specs.Prelude.{◌≡◌};
ghost use Rattle.refining.specs.Refining.{zeroed};

// Sets every number to zero.
pub fn clear(work: &mut [u32])
    ensures { work.new ≡ zeroed work.old }
{
    work.fill(0);
}
