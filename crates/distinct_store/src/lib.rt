// The store of the count of distinct pieces: slots for the numbers of rows, in an array of the caller's. Rows are dealt
// into shares by a number that depends on the piece alone, and a store holds the pieces of one share. Looking for a
// piece goes from its home slot on to the first free one, and is given up at the last slot or when the probes that are
// allowed are spent: the caller then deals in another way.
#![tactic(auto)]

ghost use Rattle.std.specs.Prelude.{◌≡◌, ◌+◌, ◌*◌, ◌^◌, ◌<◌, length};
ghost use Rattle.rows.specs.Rows.{rows_of, row_at};
ghost use Rattle.table.specs.Distinct.{same};
ghost use Rattle.distinct_store.specs.Store.{summed, folded, scattered, mixed, spot, share_of, Inside, Empty, Kept};
ghost use Rattle.distinct_store.specs.Store.{Seeking, Enrolling, Sharing};

use rows::{Row, row_at, row_count};

// An odd number without a pattern in its bits.
const MIXER: u32 = 0x9E37_79B1;

// How rows are dealt: the factors of a piece's four numbers, how many shares there are, and how many slots of a store
// are homes.
#[derive(Clone, Copy)]
pub struct Dealing {
    pub left_a: u32,
    pub left_b: u32,
    pub length: u32,
    pub direction: u32,
    pub shares: u32,
    pub homes: u32,
}

// Looking for a piece was given up, and so is what it was looked for.
#[derive(Clone, Copy)]
pub struct GaveUp;

// What looking for a piece finds; `left` is how many probes may still be spent.
#[derive(Drop)]
pub enum Sought {
    Known(usize),
    Free { at: usize, left: usize },
}

// What a row is that a store was asked to take in, with the probes that are left.
#[derive(Drop)]
pub enum Enrolled {
    Known(usize),
    Fresh(usize),
}

// A count, with the probes that are left.
#[derive(Clone, Copy)]
pub struct Counted {
    pub found: usize,
    pub left: usize,
}

pub fn same_piece(r: Row, s: Row) -> bool
    ensures { result ≡ same r s }
{
    r.left_a == s.left_a
        && r.left_b == s.left_b
        && r.length == s.length
        && r.direction == s.direction
}

fn product(a: u32, b: u32) -> u64
    ensures { result ≡ a * b }
{
    a as u64 * b as u64
}

#[tactic(auto, unfolding(crate::specs::Store::summed))]
fn sum_of(row: Row, by: Dealing) -> u64
    ensures { result ≡ summed by row }
{
    let lefts = product(row.left_a, by.left_a).wrapping_add(product(row.left_b, by.left_b));
    let rest = product(row.length, by.length).wrapping_add(product(row.direction, by.direction));
    lefts.wrapping_add(rest)
}

#[tactic(auto, unfolding(crate::specs::Store::folded))]
fn folded_of(x: u64) -> u32
    ensures { result ≡ folded x }
{
    ((x ^ x / 0x1_0000_0000) % 0x1_0000_0000) as u32
}

// Numbers at equal distances are at equal distances no more, which under some factors would be close together.
#[tactic(auto, unfolding(crate::specs::Store::scattered))]
fn scattered_of(x: u32) -> u32
    ensures { result ≡ scattered x }
{
    let y = product(x ^ x / 0x8000, MIXER) % 0x1_0000_0000;
    ((y ^ y / 0x1_0000) % 0x1_0000_0000) as u32
}

#[tactic(auto, unfolding(crate::specs::Store::mixed))]
fn mixed_of(row: Row, by: Dealing) -> u32
    ensures { result ≡ mixed by row }
{
    scattered_of(folded_of(sum_of(row, by)))
}

#[tactic(auto, unfolding(crate::specs::Store::spot))]
pub fn spot_of(row: Row, by: Dealing) -> u64
    ensures { result ≡ spot by row }
{
    product(mixed_of(row, by), by.shares)
}

// Looks for the piece from a slot on.
fn seek(
    table: &[u32],
    slots: &[u32],
    from: usize,
    row: Row,
    probes: usize,
) -> Result<Sought, GaveUp>
    requires { Inside (rows_of table.now) slots.now }
    ensures { Seeking (rows_of table.now) slots.now from row result }
{
    let mut left = probes;
    for at in from..slots.len() {
        let stored = slots[at];
        if stored == 0 {
            return Ok(Sought::Free { at, left });
        }
        if left == 0 {
            return Err(GaveUp);
        }
        left -= 1;
        if same_piece(row_at(table, (stored - 1) as usize), row) {
            return Ok(Sought::Known(left));
        }
    }
    Err(GaveUp)
}

// Takes row k in, which is `row` and dealt to `dealt`, unless its piece is there.
pub fn enroll(
    table: &[u32],
    slots: &mut [u32],
    by: Dealing,
    row: Row,
    dealt: u64,
    k: usize,
    probes: usize,
) -> Result<Enrolled, GaveUp>
    requires k_in_bounds { (k < length (rows_of table.now)) × (k + 1 < 2 ^ 32) }
    requires row_value { (row ≡ row_at (rows_of table.now) k) × (dealt ≡ spot by row) }
    requires kept { Kept by (share_of by row) (rows_of table.now) k slots.old }
    ensures { Enrolling by (share_of by row) (rows_of table.now) k slots.new result }
{
    let home = product((dealt % 0x1_0000_0000) as u32, by.homes) / 0x1_0000_0000;
    match seek(table, slots, home as usize, row, probes)? {
        Sought::Known(left) => Ok(Enrolled::Known(left)),
        Sought::Free { at, left } => {
            slots[at] = k as u32 + 1;
            Ok(Enrolled::Fresh(left))
        }
    }
}

// Counts the pieces of one share, with empty slots, in one pass over the table.
pub fn count_share(
    table: &[u32],
    slots: &mut [u32],
    by: Dealing,
    share: u64,
    probes: usize,
) -> Result<Counted, GaveUp>
    requires table_len_bound { length (rows_of table.now) < 2 ^ 32 }
    requires empty { Empty slots.old }
    ensures { Sharing by share (rows_of table.now) result }
{
    let mut left = probes;
    let mut found: usize = 0;
    for k in 0..row_count(table) {
        let row = row_at(table, k);
        let dealt = spot_of(row, by);
        if dealt / 0x1_0000_0000 != share {
            continue;
        }
        match enroll(table, slots, by, row, dealt, k, left)? {
            Enrolled::Known(l) => left = l,
            Enrolled::Fresh(l) => {
                left = l;
                found += 1;
            }
        }
    }
    Ok(Counted { found, left })
}
