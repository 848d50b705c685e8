// The text of a table, and the line of a refusal. Each line is put into a lent buffer from a place on, and the place
// behind it is returned; what does not fit is passed over and only counted. The lines of the rows are `row_lines`'.
#![tactic(auto)]

ghost use Rattle.std.specs.Prelude.{◌≡◌, [], ◌∷◌, ◌++◌, ◌+◌, ◌*◌, ◌≤◌, length};
ghost use Rattle.rows.specs.Rows.{rows_of};
ghost use Rattle.table.specs.Summing.{summary_of};
ghost use Rattle.text.specs.Decimal.{decimal};
ghost use Rattle.text.specs.Putting.{Put};
ghost use Rattle.reporting.specs.Lines.{line, refusal_text, lengths_line, covers_words, summary_line, class_line};
ghost use Rattle.reporting.specs.Lines.{class_lines, table_text};
ghost use Rattle.reporting.specs.Reporting.{lent_rows, longest_text};

use refusals::{number_of, place_of};
use row_lines::{put_field, put_rows};
use script::Refusal;
use table::Summary;
use text::put_bytes;

// A word, a number in decimal, and a byte behind it.
fn put_entry(text: &mut [u8], at: usize, word: &[u8], number: u64, after: u8) -> usize
    requires { at + length word.now + 21 ≤ longest_text }
    ensures put { Put (word.now ++ (decimal number ++ after ∷ [])) text.old at text.new result }
    ensures upper_bound { result ≤ at + length word.now + 21 }
{
    let next = put_bytes(text, at, word);
    put_field(text, next, number, after)
}

// The one line of a refusal.
pub fn put_refusal(text: &mut [u8], refusal: Refusal) -> usize
    ensures { Put (refusal_text refusal) text.old 0 text.new result }
{
    let next = put_entry(text, 0, b"refused ", number_of(refusal) as u64, b' ');
    put_field(text, next, place_of(refusal) as u64, b'\n')
}

// The first line of a table.
fn put_lengths(text: &mut [u8], p: u32, q: u32) -> usize
    ensures put { Put (lengths_line p q) text.old 0 text.new result }
    ensures upper_bound { result ≤ 50 }
{
    let next = put_entry(text, 0, b"lengths ", p as u64, b' ');
    put_field(text, next, q as u64, b'\n')
}

// The end of the second line.
fn put_covers(text: &mut [u8], at: usize, covers: [u64; 2]) -> usize
    requires { at + 49 ≤ longest_text }
    ensures put { Put (line (covers_words covers)) text.old at text.new result }
    ensures upper_bound { result ≤ at + 49 }
{
    let next = put_entry(text, at, b"covers ", covers[0], b' ');
    put_field(text, next, covers[1], b'\n')
}

// The second line.
fn put_summary(text: &mut [u8], at: usize, count: usize, summary: Summary) -> usize
    requires { at + 136 ≤ longest_text }
    ensures put { Put (summary_line count summary) text.old at text.new result }
    ensures upper_bound { result ≤ at + 136 }
{
    let matches = put_entry(text, at, b"matches ", count as u64, b' ');
    let pieces = put_entry(text, matches, b"pieces ", summary.pieces as u64, b' ');
    let distinct = put_entry(text, pieces, b"distinct ", summary.distinct as u64, b' ');
    put_covers(text, distinct, summary.covers)
}

// The line of a class, if it has pieces.
fn put_class(text: &mut [u8], at: usize, class: usize, count: usize) -> usize
    requires { at + 48 ≤ longest_text }
    ensures { Put (class_line class count) text.old at text.new result }
{
    if count == 0 {
        return at;
    }
    let next = put_entry(text, at, b"class ", class as u64, b' ');
    put_field(text, next, count as u64, b'\n')
}

// The lines of all classes.
fn put_classes(text: &mut [u8], at: usize, counts: &[usize]) -> usize
    requires { at + 48 * length counts.now ≤ longest_text }
    ensures { Put (class_lines 0 counts.now) text.old at text.new result }
{
    let mut next = at;
    for (class, count) in counts.iter().enumerate() {
        next = put_class(text, next, class, *count);
    }
    next
}

// The whole text of a table. The summary is handed over, because one run puts the text twice.
pub fn put_table(
    text: &mut [u8],
    p: u32,
    q: u32,
    count: usize,
    table: &[u32],
    summary: Summary,
) -> usize
    requires summary_value { summary ≡ summary_of table.now }
    requires table_len_bound { length (rows_of table.now) ≤ lent_rows }
    ensures { Put (table_text p q count (rows_of table.now)) text.old 0 text.new result }
{
    let lengths = put_lengths(text, p, q);
    let head = put_summary(text, lengths, count, summary);
    let rows = put_rows(text, head, table);
    put_classes(text, rows, &summary.classes)
}
