// The count of distinct pieces in windows, for Rust and C: a slice arrives as a pointer and a length. Only the comparison
// and the benchmark call it, for the summary counts in windows no table that anybody has found.
#![tactic(auto)]

ghost use Rattle.std.specs.Prelude.{◌≡◌, length};
ghost use Rattle.rows.specs.Rows.{rows_of};
ghost use Rattle.table.specs.Distinct.{first_of_each};

#[unsafe(no_mangle)]
pub extern "C" fn distinct_in_windows(table: &[u32]) -> usize
    ensures { result ≡ length (first_of_each (rows_of table.now)) }
{
    piece_windows::count_in_windows(table)
}
