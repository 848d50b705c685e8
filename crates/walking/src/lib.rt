// A chain written out by its links.
#![tactic(auto)]

ghost use Rattle.std.specs.Prelude.{◌≡◌, ◌≤◌, length};
ghost use Rattle.walking.specs.Trail.{Leads, Written};

// Writes the row numbers of a chain, each of which is linked to the next, and the last to 0; says how many.
pub fn write_chain(links: &[u32], first: u32, chain: &mut [u32]) -> usize
    requires { Leads links.now first (length chain.old) }
    ensures { Written links.now first chain.old chain.new result }
{
    let mut number = first;
    let mut used = 0;
    // Not a `for`: the links say where it goes on, and where it ends.
    while number != 0 {
        chain[used] = number;
        used += 1;
        number = links[number as usize - 1];
    }
    used
}
