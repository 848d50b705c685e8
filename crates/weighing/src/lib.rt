// Which of two rows a chain had better go on with, by signed numbers.
#![tactic(auto)]

ghost use Rattle.std.specs.Prelude.{◌≡◌, ◌+◌, ◌≤◌, length, ltb, pos, ◌-ℤ◌};
ghost use Rattle.rows.specs.Rows.{rows_of};
ghost use Rattle.weighing.specs.Weighing.{far_at, Scored, better_of};

use rows::row_at;

// The score of a chain extended by a link: signed, and may fall below zero.
pub fn link_sum(score: u32, cost: u64) -> i64
    requires { cost ≤ 9000000000000 }
    ensures { result ≡ pos score -ℤ pos cost }
{
    score as i64 - cost as i64
}

// Compared around zero: whether the link gains anything.
pub fn gains(score: u32, cost: u64) -> bool
    requires { cost ≤ 9000000000000 }
    ensures { result ≡ ltb cost score }
{
    0 < link_sum(score, cost)
}

// Of two sums the first is less.
pub fn worse(score: u32, cost: u64, other: u32, other_cost: u64) -> bool
    requires cost_bound { cost ≤ 9000000000000 }
    requires other_cost_bound { other_cost ≤ 9000000000000 }
    ensures { result ≡ ltb (score + other_cost) (other + cost) }
{
    link_sum(score, cost) < link_sum(other, other_cost)
}

// The price of all letters left of a row, on A and on B.
fn far(table: &[u32], price: u32, number: u32) -> u64
    requires price_bound { price ≤ 1000 }
    requires le_number { (1 ≤ number) × (number ≤ length (rows_of table.now)) }
    ensures value { result ≡ far_at price (rows_of table.now) number }
    ensures upper_bound { result ≤ 9000000000000 }
{
    let row = row_at(table, number as usize - 1);
    price as u64 * (row.left_a as u64 + row.left_b as u64)
}

// The better one of two rows to go on with, by number; 0 is none. Of equal ones the lower number.
#[tactic(auto, unfolding(crate::specs::Weighing::better_of))]
pub fn better(table: &[u32], scores: &[u32], price: u32, j: u32, k: u32) -> u32
    requires scored { Scored (rows_of table.now) scores.now price }
    requires j_in_bounds { j ≤ length (rows_of table.now) }
    requires k_in_bounds { k ≤ length (rows_of table.now) }
    ensures { result ≡ better_of price (rows_of table.now) scores.now j k }
{
    if j == 0 {
        return k;
    }
    if k == 0 {
        return j;
    }
    let far_a = far(table, price, j);
    let far_b = far(table, price, k);
    let score_a = scores[j as usize - 1];
    let score_b = scores[k as usize - 1];
    if worse(score_a, far_a, score_b, far_b) {
        k
    } else if worse(score_b, far_b, score_a, far_a) {
        j
    } else {
        j.min(k)
    }
}
