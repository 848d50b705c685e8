// The reader of scripts into lists: from any string of bytes to the records of its matches and to its marks, in lent
// buffers.
#![tactic(auto)]

ghost use Rattle.std.specs.Prelude.{◌≡◌, ◌+◌, ◌*◌, ◌≤◌, length};
ghost use Rattle.script.specs.Reading.{read_script};
ghost use Rattle.script.specs.Columns.{matches_read, marks_read};
ghost use Rattle.reader.specs.Walking.{Admits};
ghost use Rattle.records.specs.Records.{record_width, numbers_of, list_of, mark_numbers, point_numbers, point_list};
ghost use Rattle.records.specs.Storing.{Stored};
ghost use Rattle.records.specs.Listing.{listing_of};
ghost use Rattle.records.specs.Demands.{listed_answer, ListingDemand};

use commands::bit;
use reader::read;
use reader::walk::next_at;
use records::{Listed, MARK_NUMBERS, RECORD_WIDTH};
use script::command::{LENGTHS_WIDTH, MARK_WIDTH, MATCH_WIDTH};
use script::step::Step;
use script::{Admitted, Mark, Match, Refusal};

// Puts the record of a match behind k others.
fn put_record(out: &mut [u32], k: usize, found: Match)
    requires { record_width * k + record_width ≤ length out.old }
    ensures { Stored out.old (record_width * k) (numbers_of found) out.new }
{
    let at = RECORD_WIDTH * k;
    out[at] = found.left_a;
    out[at + 1] = found.left_b;
    out[at + 2] = found.length;
    out[at + 3] = bit(found.reversed);
}

// Puts a mark behind k others.
fn put_mark(marks: &mut [u32], k: usize, found: Mark)
    requires { mark_numbers * k + mark_numbers ≤ length marks.old }
    ensures { Stored marks.old (mark_numbers * k) (point_numbers found) marks.new }
{
    let at = MARK_NUMBERS * k;
    marks[at] = found.side as u32;
    marks[at + 1] = found.position;
}

// Puts the records and the marks of an admitted script, command by command.
fn put_lists(script: &[u8], out: &mut [u32], marks: &mut [u32])
    requires admits { Admits script.now }
    requires script_in_bounds { record_width * length (matches_read (read_script script.now)) ≤ length out.old }
    requires script_in_bounds_2 { mark_numbers * length (marks_read (read_script script.now)) ≤ length marks.old }
    ensures records { Stored out.old 0 (list_of (matches_read (read_script script.now))) out.new }
    ensures marks { Stored marks.old 0 (point_list (marks_read (read_script script.now))) marks.new }
{
    let mut count = 0;
    let mut marked = 0;
    let mut at = LENGTHS_WIDTH;
    // Not a `for`: each command tells where the next one stands.
    loop {
        match next_at(script, at) {
            Step::Finish => return,
            Step::Take(found) => {
                put_record(out, count, found);
                count += 1;
                at += MATCH_WIDTH;
            }
            Step::Keep(found) => {
                put_mark(marks, marked, found);
                marked += 1;
                at += MARK_WIDTH;
            }
        }
    }
}

// Reads a script, and the records and the marks of an admitted one to the start of the lent buffers. All commands are
// judged before a number is written, so that a refusal leaves the buffers as they were.
pub fn read_records(script: &[u8], out: &mut [u32], marks: &mut [u32]) -> Result<Listed, Refusal>
    ensures reply { result ≡ (listing_of script.now out.old marks.old).reply }
    ensures records { out.new ≡ (listing_of script.now out.old marks.old).records }
    ensures marks { marks.new ≡ (listing_of script.now out.old marks.old).marks }
    ensures demand { ListingDemand script.now out.old marks.old out.new
        marks.new (listed_answer result) }
{
    let Admitted {
        p,
        q,
        count,
        marks: marked,
    } = read(script)?;
    if out.len() < RECORD_WIDTH * count || marks.len() < MARK_NUMBERS * marked {
        return Err(Refusal::BufferTooShort);
    }
    put_lists(script, out, marks);
    Ok(Listed {
        p,
        q,
        count,
        marks: marked,
    })
}
