// The count of distinct pieces. Rows are dealt into shares, by a number that depends on the piece alone, and each pass
// over the table counts one share with the help of a store in a local array. The factors that rows are dealt by are
// drawn from all rows, so that no rows can be made for them. Should rows be dealt badly all the same, a count gives up
// after so many probes; a long table is tried once more with other factors, and at last the pieces are sorted.
#![tactic(auto)]

ghost use Rattle.std.specs.Prelude.{◌≡◌, ◌^◌, ◌<◌, length};
ghost use Rattle.rows.specs.Rows.{rows_of};
ghost use Rattle.table.specs.Distinct.{first_of_each};
ghost use Rattle.distinct_store.specs.Store.{Sharing};
ghost use Rattle.distinct_pieces.specs.Attempts.{Attempt};

use distinct_store::{Counted, Dealing, GaveUp};
use piece_windows::count_in_windows;
use rows::{Row, row_at, row_count};

// The slots of a store, how many of them are homes, and how many rows the store is used for: three quarters of the homes
// at most. The slots behind the last home take what does not fit there.
const SMALL_STORE: usize = 512;

const SMALL_HOMES: u32 = 384;

const SMALL_ROWS: usize = 224;

const MEDIUM_STORE: usize = 8192;

const MEDIUM_HOMES: u32 = 8064;

const MEDIUM_ROWS: usize = 3584;

const LARGE_STORE: usize = 32_768;

const LARGE_HOMES: u32 = 32_000;

const LARGE_ROWS: usize = 24_000;
// A count is given up that looks at more stored rows than so many for each row of the table, and some.
const PROBES_PER_ROW: usize = 2;

const MORE_PROBES: usize = 512;
// The numbers of rows that a slot can hold.
const ROW_NUMBERS: usize = 0xFFFF_FFFF;

fn probes_of(rows: usize) -> usize
    requires { rows < 2 ^ 32 }
{
    rows * PROBES_PER_ROW + MORE_PROBES
}

// What was drawn from the rows so far.
#[derive(Drop)]
struct Pool {
    a: u64,
    b: u64,
    c: u64,
    d: u64,
}

// One round of adding, rotating and exclusive or, as in SipHash.
fn stir(pool: Pool) -> Pool {
    let a = pool.a.wrapping_add(pool.b);
    let b = pool.b.rotate_left(13) ^ a;
    let c = pool.c.wrapping_add(pool.d);
    let d = pool.d.rotate_left(16) ^ c;
    let e = a.rotate_left(32).wrapping_add(d);
    let f = c.wrapping_add(b);
    Pool {
        a: e,
        b: b.rotate_left(17) ^ f,
        c: f.rotate_left(32),
        d: d.rotate_left(21) ^ e,
    }
}

// Two rows in one round.
fn stir_in(pool: Pool, first: Row, second: Row) -> Pool {
    let one = (first.left_a as u64) << 32 | first.left_b as u64;
    let two = (second.left_a as u64) << 32 | second.left_b as u64;
    let lengths = (first.length as u64) << 32 | second.length as u64;
    let directions = (first.direction as u64) << 32 | second.direction as u64;
    let stirred = stir(Pool {
        a: pool.a ^ directions,
        b: pool.b ^ lengths,
        c: pool.c ^ two,
        d: pool.d ^ one,
    });
    Pool {
        a: stirred.a ^ one,
        b: stirred.b ^ two,
        c: stirred.c ^ lengths,
        d: stirred.d ^ directions,
    }
}

// The number of the attempt and all rows, stirred together.
fn pool_of(table: &[u32], attempt: u64) -> Pool {
    let rows = row_count(table);
    let mut pool = Pool {
        a: 0x736F_6D65_7073_6575 ^ attempt,
        b: 0x646F_7261_6E64_6F6D,
        c: 0x6C79_6765_6E65_7261,
        d: 0x7465_6462_7974_6573,
    };
    let mut k: usize = 0;
    // Not a `for`: two rows at a time, and the last one alone where they are odd.
    while 1 < rows - k {
        pool = stir_in(pool, row_at(table, k), row_at(table, k + 1));
        k += 2;
    }
    if k < rows {
        pool = stir_in(pool, row_at(table, k), row_at(table, k));
    }
    stir(stir(stir(pool)))
}

// Factors that depend on every row: nobody can make rows for factors that change with the rows.
fn drawn_dealing(table: &[u32], attempt: u64, shares: u32, homes: u32) -> Dealing
    ensures { result.shares ≡ shares }
{
    let pool = pool_of(table, attempt);
    Dealing {
        left_a: (pool.a >> 32) as u32,
        left_b: (pool.b >> 32) as u32,
        length: (pool.c >> 32) as u32,
        direction: (pool.d >> 32) as u32,
        shares,
        homes,
    }
}

// Counts a table that is one share, with a store of so many slots.
fn count_with_store<const SLOTS: usize>(table: &[u32], homes: u32) -> Result<Counted, GaveUp>
    requires table_len_bound { length (rows_of table.now) < 2 ^ 32 }
    requires slots_bound { SLOTS < 2 ^ 32 }
    ensures { Attempt (rows_of table.now) result }
{
    let by = drawn_dealing(table, 0, 1, homes);
    let mut slots = [0u32; SLOTS];
    distinct_store::count_share(table, &mut slots, by, 0, probes_of(row_count(table)))
}

fn count_with_large_store(
    table: &[u32],
    by: Dealing,
    share: u64,
    probes: usize,
) -> Result<Counted, GaveUp>
    requires { length (rows_of table.now) < 2 ^ 32 }
    ensures { Sharing by share (rows_of table.now) result }
{
    let mut slots = [0u32; LARGE_STORE];
    picked_rows::count_share(table, &mut slots, by, share, probes)
}

// Counts share by share.
fn count_shares(table: &[u32], by: Dealing, probes: usize) -> Result<Counted, GaveUp>
    requires table_len_bound { length (rows_of table.now) < 2 ^ 32 }
    requires shares_nonzero { 0 < by.shares }
    ensures { Attempt (rows_of table.now) result }
{
    let mut all = Counted {
        found: 0,
        left: probes,
    };
    for share in 0..by.shares {
        let counted = count_with_large_store(table, by, share as u64, all.left)?;
        all = Counted {
            found: all.found + counted.found,
            left: counted.left,
        };
    }
    Ok(all)
}

// Counts a long table, by the factors of an attempt.
fn count_long(table: &[u32], attempt: u64) -> Result<Counted, GaveUp>
    requires { length (rows_of table.now) < 2 ^ 32 }
    ensures { Attempt (rows_of table.now) result }
{
    let rows = row_count(table);
    let shares = (rows / LARGE_ROWS) as u32 + 1;
    let by = drawn_dealing(table, attempt, shares, LARGE_HOMES);
    count_shares(table, by, probes_of(rows))
}

// What was counted; in windows, if it was given up.
fn settled(table: &[u32], attempt: Result<Counted, GaveUp>) -> usize
    requires { Attempt (rows_of table.now) attempt }
    ensures { result ≡ length (first_of_each (rows_of table.now)) }
{
    match attempt {
        Ok(counted) => counted.found,
        Err(GaveUp) => count_in_windows(table),
    }
}

// A short table is one share, and not worth a large array.
pub fn count_distinct(table: &[u32]) -> usize
    ensures { result ≡ length (first_of_each (rows_of table.now)) }
{
    let rows = row_count(table);
    if rows <= SMALL_ROWS {
        settled(table, count_with_store::<SMALL_STORE>(table, SMALL_HOMES))
    } else if rows <= MEDIUM_ROWS {
        settled(table, count_with_store::<MEDIUM_STORE>(table, MEDIUM_HOMES))
    } else if rows <= ROW_NUMBERS {
        match count_long(table, 0) {
            Ok(counted) => counted.found,
            Err(GaveUp) => settled(table, count_long(table, 1)),
        }
    } else {
        count_in_windows(table)
    }
}
