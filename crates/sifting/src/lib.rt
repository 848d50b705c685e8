// Taking the numbers of one rising run out of another that stands behind it.
#![tactic(auto)]

ghost use Rattle.std.specs.Prelude.{◌<◌};
ghost use Rattle.runs.specs.Runs.{Run, Bound};
ghost use Rattle.sifting.specs.Sifting.{Siftable, Sifted, Counted};

use runs::{lower_bound, stands};

// The place of the first number of a rising run that is at least x, looked for from the run's start on in strides that
// double: numbers that follow each other are looked for from where the one before was found.
fn bound_near(a: &[u32], lo: usize, hi: usize, x: u32, stride: usize) -> usize
    requires run { Run a.now lo hi }
    requires stride_nonzero { 0 < stride }
    ensures { Bound a.now lo hi x result }
{
    let mut at = lo;
    let mut step = stride;
    // Not a `for`: the stride doubles.
    while step < hi - at {
        if x <= a[at + step - 1] {
            return lower_bound(a, at, at + step - 1, x);
        }
        at += step;
        step += step;
    }
    lower_bound(a, at, hi, x)
}

// So few numbers are looked for in the whole of what is left of the run.
const FEW: usize = 8;

// The first stride for `count` numbers that are looked for in a run of `size`.
fn first_stride(size: usize, count: usize) -> usize
    requires size_nonzero { 0 < size }
    requires count_nonzero { 0 < count }
    ensures { 0 < result }
{
    if count < FEW { size } else { size / count + 1 }
}

// 1 for a number that is to be kept, and else 0.
pub fn counted(known: bool) -> usize
    ensures { Counted known result }
{
    usize::from(!known)
}

// Takes the numbers of the run [lo, hi) out of the run [at, end) behind it, and returns where that ends then.
pub fn without(a: &mut [u32], lo: usize, hi: usize, at: usize, end: usize) -> usize
    requires { Siftable a.old lo hi at end }
    ensures { Sifted a.old lo hi at end a.new result }
{
    if lo == hi || at == end {
        return end;
    }
    let stride = first_stride(hi - lo, end - at);
    let mut low = lo;
    let mut kept = at;
    for k in at..end {
        let x = a[k];
        low = bound_near(a, low, hi, x, stride);
        let known = stands(a, low, hi, x);
        a[kept] = x;
        kept += counted(known);
    }
    kept
}
