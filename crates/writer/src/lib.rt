// The writer of scripts: from a list of records and a list of marks to the bytes of a script in a lent buffer.
#![tactic(auto)]

ghost use Rattle.std.specs.Prelude.{◌≡◌, ◌+◌, ◌*◌, ◌≤◌, ◌<◌, eqb, length};
ghost use mathlib.Core.List.{[], ◌∷◌, flat_map};
ghost use Rattle.script.specs.Commands.{lengths_width, match_width, mark_width};
ghost use Rattle.records.specs.Records.{records_of, match_of, matches_of, points_of};
ghost use Rattle.records.specs.Bytes.{number_bytes, lengths_bytes, code_of, match_bytes, mark_bytes, bytes_of};
ghost use Rattle.records.specs.Storing.{Stored};
ghost use Rattle.records.specs.Writing.{writing_of};
ghost use Rattle.records.specs.Demands.{written_answer, WritingDemand};
ghost use Rattle.writer.specs.Directed.{Directed, Sided};

use judging_records::{judge_records, record_at};
use records::{MARK_NUMBERS, RECORD_WIDTH, Record};
use script::Refusal;
use script::command::{LENGTHS_WIDTH, MARK_WIDTH, MATCH_WIDTH};

fn put_byte(out: &mut [u8], at: usize, byte: u8)
    requires { at < length out.old }
    ensures { Stored out.old at (byte ∷ []) out.new }
{
    out[at] = byte;
}

// Puts the four bytes of a number, the least first.
fn put_number(out: &mut [u8], at: usize, number: u32)
    requires { at + 4 ≤ length out.old }
    ensures { Stored out.old at (number_bytes number) out.new }
{
    out[at..at + 4].copy_from_slice(&number.to_le_bytes());
}

// Puts the lengths command.
fn put_lengths(out: &mut [u8], p: u32, q: u32)
    requires { lengths_width ≤ length out.old }
    ensures { Stored out.old 0 (lengths_bytes p q) out.new }
{
    put_byte(out, 0, 0x4C);
    put_number(out, 1, p);
    put_number(out, 5, q);
}

// The byte that begins a match command: reckoned, since lists mix the directions in no order, and a branch would be
// guessed wrong at every other match.
fn code_of(direction: u32) -> u8
    requires { direction ≤ 1 }
    ensures { result ≡ code_of (eqb direction 1) }
{
    (0x44 + 14 * direction) as u8
}

// Puts the match command of a record.
fn put_match(out: &mut [u8], at: usize, item: Record)
    requires match_width_in_bounds { at + match_width ≤ length out.old }
    requires direction_bound { item.direction ≤ 1 }
    ensures { Stored out.old at (match_bytes (match_of item)) out.new }
{
    put_byte(out, at, code_of(item.direction));
    put_number(out, at + 1, item.left_a);
    put_number(out, at + 5, item.left_b);
    put_number(out, at + 9, item.length);
}

// Puts the commands of all records behind the lengths.
fn put_matches(out: &mut [u8], records: &[u32], count: usize)
    requires count_value { (count ≡ length (records_of records.now)) × (lengths_width + match_width * count ≤ length out.old) }
    requires directed { Directed records.now }
    ensures { Stored out.old lengths_width (flat_map match_bytes (matches_of records.now))
        out.new }
{
    for k in 0..count {
        put_match(out, LENGTHS_WIDTH + MATCH_WIDTH * k, record_at(records, k));
    }
}

// Puts the mark command of a side and a position.
fn put_mark(out: &mut [u8], at: usize, side: u32, position: u32)
    requires mark_width_in_bounds { at + mark_width ≤ length out.old }
    requires side_bound { side ≤ 1 }
    ensures { Stored out.old at (mark_bytes (record { side = side; position = position })) out.new }
{
    put_byte(out, at, 0x4D);
    put_byte(out, at + 1, side as u8);
    put_number(out, at + 2, position);
}

// Puts the commands of all marks from an offset on.
fn put_marks(out: &mut [u8], from: usize, marks: &[u32], count: usize)
    requires count_value { (count ≡ length (points_of marks.now)) × (from + mark_width * count ≤ length out.old) }
    requires sided { Sided marks.now }
    ensures { Stored out.old from (flat_map mark_bytes (points_of marks.now)) out.new }
{
    for k in 0..count {
        let at = MARK_NUMBERS * k;
        put_mark(out, from + MARK_WIDTH * k, marks[at], marks[at + 1]);
    }
}

// Puts the whole script of lists without a fault.
fn put_script(
    out: &mut [u8],
    p: u32,
    q: u32,
    records: &[u32],
    count: usize,
    marks: &[u32],
    marked: usize,
)
    requires count_value { (count ≡ length (records_of records.now)) × (marked ≡ length (points_of marks.now)) }
    requires marked_in_bounds { lengths_width + match_width * count + mark_width * marked + 1 ≤ length out.old }
    requires directed { Directed records.now × Sided marks.now }
    ensures { Stored out.old 0
        (bytes_of p q (matches_of records.now) (points_of marks.now)) out.new }
{
    put_lengths(out, p, q);
    put_matches(out, records, count);
    put_marks(out, LENGTHS_WIDTH + MATCH_WIDTH * count, marks, marked);
    put_byte(
        out,
        LENGTHS_WIDTH + MATCH_WIDTH * count + MARK_WIDTH * marked,
        0x45,
    );
}

// Writes the script of p, q, the records, four numbers each, and the marks, two each, to the start of the lent buffer.
// All are judged before a byte is written, so that a refusal leaves the buffer as it was.
pub fn write(
    p: u32,
    q: u32,
    records: &[u32],
    marks: &[u32],
    out: &mut [u8],
) -> Result<usize, Refusal>
    ensures reply { result ≡ (writing_of p q records.now marks.now out.old).reply }
    ensures script { out.new ≡ (writing_of p q records.now marks.now out.old).script }
    ensures demand { WritingDemand p q records.now marks.now out.old out.new
        (written_answer result) }
{
    judge_records(p, q, records, marks)?;
    let count = records.len() / RECORD_WIDTH;
    let marked = marks.len() / MARK_NUMBERS;
    let length = LENGTHS_WIDTH + MATCH_WIDTH * count + MARK_WIDTH * marked + 1;
    if out.len() < length {
        return Err(Refusal::BufferTooShort);
    }
    put_script(out, p, q, records, count, marks, marked);
    Ok(length)
}
