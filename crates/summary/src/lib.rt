// The summary of a table: pieces, distinct pieces, the letters covered on A and on B, and classes.
#![tactic(auto)]

ghost use Rattle.std.specs.Prelude.{◌≡◌, [], ◌∷◌, ℕ, ◌<◌, eqb, false, MatchOption};
ghost use Rattle.refinement.specs.declared.Side.{Side};
ghost use Rattle.rows.specs.Rows.{rows_of};
ghost use Rattle.table.specs.Distinct.{DistinctPieces};
ghost use Rattle.table.specs.Covering.{cover_of, LettersOnce};
ghost use Rattle.table.specs.Summing.{class_count, length_in_class, classes_of, summary_of};

use covered_letters::cover_of;
use distinct_pieces::count_distinct;
use refinement::Side;
use rows::{row_at, row_count};
use table::{CLASSES, Summary};

// The class of a length, if it fits one.
fn class_of(length: u32) -> Option<usize>
    ensures { MatchOption result ((c : ℕ) → c < class_count → length_in_class c length ≡ false)
        (λ j. (j < class_count) × ((c : ℕ) → c < class_count → length_in_class c length ≡ eqb c j)) }
{
    if length == 0 {
        return None;
    }
    let class = length.ilog2() as usize;
    (class < CLASSES).then_some(class)
}

fn count_classes(table: &[u32]) -> [usize; CLASSES]
    ensures { result ≡ classes_of (rows_of table.now) }
{
    let mut classes = [0usize; CLASSES];
    for k in 0..row_count(table) {
        if let Some(class) = class_of(row_at(table, k).length) {
            classes[class] += 1;
        }
    }
    classes
}

// The letters covered on A, and those on B.
fn count_covers(table: &[u32]) -> [u64; 2]
    ensures { result ≡ cover_of Side.A (rows_of table.now) ∷ cover_of Side.B (rows_of table.now) ∷ [] }
{
    [cover_of(table, Side::A), cover_of(table, Side::B)]
}

// The summary of a table.
pub fn sum_up(table: &[u32]) -> Summary
    ensures summary { result ≡ summary_of table.now }
    ensures distinct { DistinctPieces (rows_of table.now) result.distinct }
    ensures covers { LettersOnce (rows_of table.now) result.covers }
{
    Summary {
        pieces: row_count(table),
        distinct: count_distinct(table),
        covers: count_covers(table),
        classes: count_classes(table),
    }
}
