// Notes of numbers in the places [top, limit) of a lent slice, a bit for each: numbers with the same remainder share one.
// A number whose bit is not set was never noted. It serves speed alone that few share one.
#![tactic(auto)]

ghost use Rattle.std.specs.Prelude.{◌+◌, ◌<◌, ◌≤◌, ◌^◌, ◌≡◌, length};
ghost use Rattle.std.specs.Int.Bits.{bit_or};
ghost use Rattle.runs.specs.Runs.{Answers};
ghost use Rattle.noting.specs.Notes.{Slot, Notes, Noted, Set, Noting, NotedRun, Remembered, OnlyNotes};

// Which bit of `places` places belongs to x.
fn slot_of(x: u32, places: usize) -> usize
    requires places_nonzero { 0 < places }
    requires places_bound { places ≤ 134217728 }
    ensures { Slot x places result }
{
    x as usize % (places * 32)
}

// Whether bit k is set.
fn has_bit(word: u32, k: usize) -> bool
    requires { k < 32 }
    ensures { Answers (Set word k) result }
{
    (word >> k) % 2 == 1
}

// The number with bit k set.
fn with_bit(word: u32, k: usize) -> u32
    requires { k < 32 }
    ensures { result ≡ bit_or word (2 ^ k) }
{
    word | (1 << k)
}

// Whether x may have been noted.
pub fn noted(a: &[u32], top: usize, limit: usize, x: u32) -> bool
    requires { Notes a.now top limit }
    ensures { Answers (Noted a.now top limit x) result }
{
    let slot = slot_of(x, limit - top);
    has_bit(a[top + slot / 32], slot % 32)
}

// Notes x.
fn note(a: &mut [u32], top: usize, limit: usize, x: u32)
    requires { Notes a.old top limit }
    ensures { Noting (λ y. y ≡ x) a.old top limit a.new }
{
    let slot = slot_of(x, limit - top);
    let at = top + slot / 32;
    let word = a[at];
    a[at] = with_bit(word, slot % 32);
}

// Notes the numbers at the places [lo, hi).
fn note_run(a: &mut [u32], lo: usize, hi: usize, top: usize, limit: usize)
    requires notes { Notes a.old top limit }
    requires lo_le_hi { lo ≤ hi }
    requires hi_le_top { hi ≤ top }
    ensures { NotedRun a.old lo hi top limit a.new }
{
    for k in lo..hi {
        let x = a[k];
        note(a, top, limit, x);
    }
}

// The same, if there are places for notes.
pub fn remember(a: &mut [u32], lo: usize, hi: usize, top: usize, limit: usize)
    requires lo_le_hi { lo ≤ hi }
    requires hi_le_top { hi ≤ top }
    requires limit_bound { limit ≤ top + 134217728 }
    requires limit_in_bounds { limit ≤ length a.old }
    ensures { Remembered a.old lo hi top limit a.new }
{
    if top < limit {
        note_run(a, lo, hi, top, limit);
    }
}

// Clears the places [top, limit).
pub fn forget(a: &mut [u32], top: usize, limit: usize)
    requires { limit ≤ length a.old }
    ensures { OnlyNotes a.old top limit a.new }
{
    for k in top..limit {
        a[k] = 0;
    }
}
