// The chaining call: the backbone of a cross, which stands above the refining call.
#![tactic(auto)]

ghost use Rattle.std.specs.Prelude.{◌≡◌};
ghost use Rattle.backbone.specs.Chaining.{chaining_of};
ghost use Rattle.backbone.specs.Demands.{Lent, chained_answer, ChainingDemand};
ghost use Rattle.chain.specs.Calls.{admitting, Refuses, scores_after, Chains};

use backbone::Chained;
use clearing::clear;
use finding_chain::find_chain;
use reader::read;
use refine::refine;
use refusals::number_of;
use rows::{ROW_WIDTH, row_count};
use script::Refusal;

// The highest gap price.
const MOST_PRICE: u32 = 1000;

// So many rows have numbers of 32 bits.
const MOST_ROWS: usize = 4294967295;

// Whether the price and the buffers do, for a table with room for so many rows.
fn admits(price: u32, capacity: usize, chain: usize, scores: usize) -> bool
    ensures { result ≡ admitting price capacity chain scores }
{
    price <= MOST_PRICE && (capacity <= chain && (capacity <= scores && capacity <= MOST_ROWS))
}

// Why a call is refused whose price or buffers do not do: by the script, by the work buffer, by the price, or by the
// other two buffers. Nothing is altered.
fn refuse(script: &[u8], price: u32, table: &[u32], work: &[u32]) -> Refusal
    ensures { Refuses script.now price table.now work.now result }
{
    match read(script) {
        Err(refusal) => refusal,
        Ok(_) => {
            if work.len() < 4 * row_count(table) {
                Refusal::WorkTooShort
            } else if price > MOST_PRICE {
                Refusal::PriceTooHigh
            } else {
                Refusal::ChainTooShort
            }
        }
    }
}

// What a refusal by refining does to the score buffer: after 12 it is zero too.
fn clear_after(refusal: Refusal, scores: &mut [u32])
    ensures { scores.new ≡ scores_after refusal scores.old }
{
    if number_of(refusal) == 12 {
        clear(scores);
    }
}

// A call whose price and buffers do: the script's refusals, 11 and 12 are refining's.
fn chain_lent(
    script: &[u8],
    price: u32,
    table: &mut [u32],
    work: &mut [u32],
    chain: &mut [u32],
    scores: &mut [u32],
) -> Result<Chained, Refusal>
    requires { Lent price table.old chain.old scores.old }
    ensures { Chains script.now price table.old work.old chain.old
        scores.old result table.new work.new chain.new scores.new }
{
    match refine(script, table, work) {
        Err(refusal) => {
            clear_after(refusal, scores);
            Err(refusal)
        }
        Ok(rows) => {
            let found = find_chain(&table[..ROW_WIDTH * rows], price, work, chain, scores);
            Ok(Chained {
                score: found.score,
                rows,
                length: found.length,
            })
        }
    }
}

// Finds the best chain of direct pieces of a script. Success gives its score, the count of rows, which stand from the
// table's start, and the count of row numbers, which stand from the chain buffer's start.
pub fn chain(
    script: &[u8],
    price: u32,
    table: &mut [u32],
    work: &mut [u32],
    chain: &mut [u32],
    scores: &mut [u32],
) -> Result<Chained, Refusal>
    ensures reply { result
        ≡ (chaining_of script.now price table.old work.old chain.old
        scores.old).reply }
    ensures table { table.new
        ≡ (chaining_of script.now price table.old work.old chain.old
        scores.old).table }
    ensures work { work.new
        ≡ (chaining_of script.now price table.old work.old chain.old
        scores.old).work }
    ensures chain { chain.new
        ≡ (chaining_of script.now price table.old work.old chain.old
        scores.old).chain }
    ensures scores { scores.new
        ≡ (chaining_of script.now price table.old work.old chain.old
        scores.old).scores }
    ensures demand { ChainingDemand script.now price table.old work.old chain.old
        scores.old (chained_answer result) table.new work.new chain.new
        scores.new }
{
    if admits(price, row_count(table), chain.len(), scores.len()) {
        chain_lent(script, price, table, work, chain, scores)
    } else {
        Err(refuse(script, price, table, work))
    }
}
