// The text of a refusal or of a table's rows, in a lent buffer if there is room for it.
#![tactic(auto)]

ghost use Rattle.std.specs.Prelude.{◌≡◌, ◌≤◌, length};
ghost use Rattle.rows.specs.Rows.{rows_of};
ghost use Rattle.reporting.specs.Lines.{refusal_text, table_text};
ghost use Rattle.reporting.specs.Reporting.{lent_rows, reporting_of_text};

use lines::{put_refusal, put_table};
use reporting::TextTooShort;
use script::Refusal;
use summary::sum_up;

// Measures the line by putting it into an empty buffer, and puts it into the text if there is room.
pub fn print_refusal(refusal: Refusal, text: &mut [u8]) -> Result<usize, TextTooShort>
    ensures { reporting_of_text (refusal_text refusal) text.old ≡ record { reply = result; text = text.new } }
{
    let mut nothing = [0u8; 0];
    let needed = put_refusal(&mut nothing, refusal);
    if text.len() < needed {
        return Err(TextTooShort { needed });
    }
    Ok(put_refusal(text, refusal))
}

// The same with a table, whose rows are summed up once.
pub fn print_table(
    p: u32,
    q: u32,
    count: usize,
    table: &[u32],
    text: &mut [u8],
) -> Result<usize, TextTooShort>
    requires { length (rows_of table.now) ≤ lent_rows }
    ensures { reporting_of_text (table_text p q count (rows_of table.now)) text.old
        ≡ record { reply = result; text = text.new } }
{
    let summary = sum_up(table);
    let mut nothing = [0u8; 0];
    let needed = put_table(&mut nothing, p, q, count, table, summary);
    if text.len() < needed {
        return Err(TextTooShort { needed });
    }
    Ok(put_table(text, p, q, count, table, summary))
}
