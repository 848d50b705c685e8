// The calls of `cut_set` and `settling` for C and Rust: a slice arrives as a pointer and a length, and the bookkeeping
// is eight numbers in a slice of the caller's, in the order of CutSet's fields. Nothing asks a caller in C for what a
// `requires` says: it has to start with cut_set_empty, change neither slice but by these calls, call cut_set_gather
// between an addition and the calls that say so, and start anew once an addition found no room.
#![tactic(auto)]

ghost use Rattle.std.specs.Prelude.{◌≡◌, ◌≤◌, length};
ghost use Rattle.runs.specs.Runs.{Answers, Bound};
ghost use Rattle.cut_set.specs.Store.{Part, FoundRun, NothingAdded, Member, Emptied, Gathered, AllFinished, Joined};
ghost use Rattle.cut_set_doors.specs.Doors.{set_of, Lent, AddedBy};

use cut_set::{Added, CutSet};

// The set that eight numbers say.
fn read_set(ends: &[usize]) -> CutSet
    requires { 8 ≤ length ends.now }
    ensures { result ≡ set_of ends.now }
{
    CutSet {
        base: ends[0],
        long: ends[1],
        mid: ends[2],
        done: ends[3],
        fresh: ends[4],
        used: ends[5],
        top: ends[6],
        limit: ends[7],
    }
}

// Writes a set's eight numbers.
fn write_set(ends: &mut [usize], s: CutSet)
    requires { 8 ≤ length ends.old }
    ensures { set_of ends.new ≡ s }
{
    ends[0] = s.base;
    ends[1] = s.long;
    ends[2] = s.mid;
    ends[3] = s.done;
    ends[4] = s.fresh;
    ends[5] = s.used;
    ends[6] = s.top;
    ends[7] = s.limit;
}

// A set with no member in the places [base, limit).
#[unsafe(no_mangle)]
pub extern "C" fn cut_set_empty(a: &[u32], ends: &mut [usize], base: usize, limit: usize)
    requires part { Part a.now base limit }
    requires in_bounds { 8 ≤ length ends.old }
    ensures { Emptied a.now base limit (set_of ends.new) }
{
    write_set(ends, cut_set::empty(a, base, limit));
}

// Whether x is a member, after cut_set_gather.
#[unsafe(no_mangle)]
pub extern "C" fn cut_set_member(a: &[u32], ends: &[usize], x: u32) -> bool
    requires lent { Lent a.now ends.now }
    requires nothing_added { NothingAdded (set_of ends.now) }
    ensures { Answers (Member a.now (set_of ends.now) x) result }
{
    cut_set::member(a, read_set(ends), x)
}

// Adds x as newly found, unless it is a member. False: there is no room, and the eight numbers keep no set any more.
#[unsafe(no_mangle)]
pub extern "C" fn cut_set_add(a: &mut [u32], ends: &mut [usize], x: u32) -> bool
    requires { Lent a.old ends.old }
    ensures { AddedBy a.old ends.old x a.new ends.new result }
{
    let added = cut_set::add(a, read_set(ends), x);
    match added {
        Added::Held(t) => {
            write_set(ends, t);
            true
        }
        Added::Full(_) => false,
    }
}

// Brings the newly found members into one rising run.
#[unsafe(no_mangle)]
pub extern "C" fn cut_set_gather(a: &mut [u32], ends: &mut [usize])
    requires { Lent a.old ends.old }
    ensures { Gathered a.old (set_of ends.old) a.new (set_of ends.new) }
{
    let t = cut_set::gather(a, read_set(ends));
    write_set(ends, t);
}

// The place of the first newly found member that is at least x, after cut_set_gather.
#[unsafe(no_mangle)]
pub extern "C" fn cut_set_first_found(a: &[u32], ends: &[usize], x: u32) -> usize
    requires lent { Lent a.now ends.now }
    requires found_run { FoundRun a.now (set_of ends.now) }
    ensures { Bound a.now (set_of ends.now).done (set_of ends.now).used x result }
{
    cut_set::first_found(a, read_set(ends), x)
}

// Makes all newly found members finished, after cut_set_gather.
#[unsafe(no_mangle)]
pub extern "C" fn cut_set_finish(a: &mut [u32], ends: &mut [usize])
    requires lent { Lent a.old ends.old }
    requires nothing_added { NothingAdded (set_of ends.old) }
    ensures { AllFinished a.old (set_of ends.old) a.new
        (set_of ends.new) }
{
    let t = settling::finish(a, read_set(ends));
    write_set(ends, t);
}

// Brings all members into one rising run.
#[unsafe(no_mangle)]
pub extern "C" fn cut_set_join(a: &mut [u32], ends: &mut [usize])
    requires { Lent a.old ends.old }
    ensures { Joined a.old (set_of ends.old) a.new (set_of ends.new) }
{
    let t = settling::join(a, read_set(ends));
    write_set(ends, t);
}
