// The program's text, made in a lent buffer: what is printed is proved, and the program only reads, calls and writes.
#![tactic(auto)]

ghost use Rattle.std.specs.Prelude.{◌≡◌};
ghost use Rattle.reporting.specs.LineTwo.{LineTwoPrinted};
ghost use Rattle.reporting.specs.Reporting.{lent_table, lent_work, reporting_of, ReadAs};

use brief_report::report_brief;
use printing::{print_refusal, print_table};
use refine::refine_long;
use reporting::{Brief, TextTooShort};
use rows::ROW_WIDTH;

// The rows of the table that the program lends.
pub const ROWS: usize = 3000;
// So many bytes are room for the text of every input.
pub const LONGEST_TEXT: usize = 262_144;

fn lent_table() -> [u32; ROW_WIDTH * ROWS]
    ensures { result ≡ lent_table }
{
    [0; ROW_WIDTH * ROWS]
}

fn lent_work() -> [u32; 4 * ROWS]
    ensures { result ≡ lent_work }
{
    [0; 4 * ROWS]
}

// An admitted script: its table, or the refusal of refining.
fn report_admitted(
    script: &[u8],
    p: u32,
    q: u32,
    count: usize,
    text: &mut [u8],
) -> Result<usize, TextTooShort>
    requires { ReadAs script.now p q count }
    ensures { reporting_of script.now text.old ≡ record { reply = result; text = text.new } }
{
    let mut table = lent_table();
    let mut work = lent_work();
    match refine_long(script, &mut table[..], &mut work[..]) {
        Err(refusal) => print_refusal(refusal, text),
        Ok(n) => print_table(p, q, count, &table[..ROW_WIDTH * n], text),
    }
}

// Makes the text that the program prints for a script.
pub fn report(script: &[u8], text: &mut [u8]) -> Result<usize, TextTooShort>
    ensures reply { result ≡ (reporting_of script.now text.old).reply }
    ensures text { text.new ≡ (reporting_of script.now text.old).text }
    ensures line_two { LineTwoPrinted script.now result text.new }
{
    match report_brief(script, text) {
        Brief::Answered(reply) => reply,
        Brief::Larger { p, q, count } => report_admitted(script, p, q, count, text),
    }
}
