// The first fault of a list of records and a list of marks, with the refusals in 02's order, before anything is written
// of them.
#![tactic(auto)]

ghost use Rattle.std.specs.Prelude.{◌≡◌, ◌+◌, ◌*◌, ◌≤◌, length};
ghost use Rattle.script.specs.Limits.{most_matches};
ghost use Rattle.records.specs.Records.{record_width, records_of, record_at, match_of};
ghost use Rattle.records.specs.Writing.{record_judgement, first_fault, records_judgement, marks_judgement};
ghost use Rattle.records.specs.Writing.{list_judgement, judgement_of};

use judging::{judge_lengths, judge_numbers, judge_point};
use records::{MARK_NUMBERS, RECORD_WIDTH, Record};
use script::limits::{MOST_MARKS, MOST_MATCHES};
use script::{Match, Refusal};

// The record behind k others.
pub fn record_at(records: &[u32], k: usize) -> Record
    requires { record_width * k + record_width ≤ length records.now }
    ensures { result ≡ record_at (records_of records.now) k }
{
    let at = RECORD_WIDTH * k;
    Record {
        left_a: records[at],
        left_b: records[at + 1],
        length: records[at + 2],
        direction: records[at + 3],
    }
}

// The match that a record says.
fn match_of(item: Record) -> Match
    ensures { result ≡ match_of item }
{
    Match {
        track_a: 0,
        track_b: 1,
        left_a: item.left_a,
        left_b: item.left_b,
        length: item.length,
        reversed: item.direction == 1,
    }
}

// A record of this number: 15 for its direction, then 7, 8, 9.
fn judge_record(item: Record, p: u32, q: u32, number: usize) -> Result<(), Refusal>
    ensures { result ≡ record_judgement p q number item }
{
    if 1 < item.direction {
        return Err(Refusal::MalformedRecords(number));
    }
    judge_numbers(match_of(item), p, q, number)
}

// The records, numbered from 1.
fn judge_each(records: &[u32], p: u32, q: u32) -> Result<(), Refusal>
    ensures { result ≡ records_judgement p q records.now }
{
    for k in 0..records.len() / RECORD_WIDTH {
        judge_record(record_at(records, k), p, q, k + 1)?;
    }
    Ok(())
}

// The marks, numbered on from so many records.
fn judge_marks(marks: &[u32], p: u32, q: u32, count: usize) -> Result<(), Refusal>
    requires { count ≤ most_matches }
    ensures { result ≡ marks_judgement p q count marks.now }
{
    for n in 0..marks.len() / MARK_NUMBERS {
        let at = MARK_NUMBERS * n;
        judge_point(marks[at], marks[at + 1], p, q, count + n + 1)?;
    }
    Ok(())
}

// The records, then the marks.
fn judge_both(records: &[u32], marks: &[u32], p: u32, q: u32) -> Result<(), Refusal>
    requires { length records.now ≤ record_width * most_matches }
    ensures { result
        ≡ first_fault (records_judgement p q records.now)
        (marks_judgement p q (length (records_of records.now)) marks.now) }
{
    judge_each(records, p, q)?;
    judge_marks(marks, p, q, records.len() / RECORD_WIDTH)
}

// The counts of numbers, then those of the records and the marks, then each of them.
fn judge_list(records: &[u32], marks: &[u32], p: u32, q: u32) -> Result<(), Refusal>
    ensures { result ≡ list_judgement p q records.now marks.now }
{
    if records.len() % RECORD_WIDTH != 0 || marks.len() % MARK_NUMBERS != 0 {
        return Err(Refusal::MalformedRecords(0));
    }
    if RECORD_WIDTH * MOST_MATCHES < records.len() {
        return Err(Refusal::TooManyMatches(0));
    }
    if MARK_NUMBERS * MOST_MARKS < marks.len() {
        return Err(Refusal::TooManyMarks(0));
    }
    judge_both(records, marks, p, q)
}

// The lengths, then the lists.
pub fn judge_records(p: u32, q: u32, records: &[u32], marks: &[u32]) -> Result<(), Refusal>
    ensures { result ≡ judgement_of p q records.now marks.now }
{
    judge_lengths(p, q)?;
    judge_list(records, marks, p, q)
}
