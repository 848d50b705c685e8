// The text of a refused script, and of one whose table has few rows, made with a small table: a short script costs fewer
// cuts than the zeros of a large one.
#![tactic(auto)]

ghost use Rattle.std.specs.Prelude.{◌≡◌, ◌*◌, replicate};
ghost use Rattle.rows.specs.Rows.{row_width};
ghost use Rattle.reporting.specs.Reporting.{ReadAs, Briefly};
ghost use Rattle.brief_report.specs.Few.{few_rows};

use printing::{print_refusal, print_table};
use refine::refine;
use reporting::Brief;
use rows::ROW_WIDTH;

// The rows of the small table.
const FEW_ROWS: usize = 64;

fn few_table() -> [u32; ROW_WIDTH * FEW_ROWS]
    ensures { result ≡ replicate (row_width * few_rows) 0 }
{
    [0; ROW_WIDTH * FEW_ROWS]
}

fn few_work() -> [u32; 4 * FEW_ROWS]
    ensures { result ≡ replicate (4 * few_rows) 0 }
{
    [0; 4 * FEW_ROWS]
}

// An admitted script. If it has more matches than the small table has rows, it has more pieces too: each has one.
fn report_few(script: &[u8], p: u32, q: u32, count: usize, text: &mut [u8]) -> Brief
    requires { ReadAs script.now p q count }
    ensures { Briefly script.now text.old text.new result }
{
    if FEW_ROWS < count {
        return Brief::Larger { p, q, count };
    }
    let mut table = few_table();
    let mut work = few_work();
    match refine(script, &mut table[..], &mut work[..]) {
        Err(_) => Brief::Larger { p, q, count },
        Ok(n) => Brief::Answered(print_table(p, q, count, &table[..ROW_WIDTH * n], text)),
    }
}

// The text of a script, unless its table needs more rows.
pub fn report_brief(script: &[u8], text: &mut [u8]) -> Brief
    ensures { Briefly script.now text.old text.new result }
{
    match reader::read(script) {
        Err(refusal) => Brief::Answered(print_refusal(refusal, text)),
        Ok(read) => report_few(script, read.p, read.q, read.count, text),
    }
}
