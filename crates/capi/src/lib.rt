// Doors for C and Rust: plain functions over the library, prefix notchergrey_. Each returns 0 or the refusal's number
// and hands the rest out through pointers. Like a call of the library, a refused one alters no lent number but `place`.
// The doors on tables refuse nothing.
#![tactic(auto)]

ghost use Rattle.std.specs.Prelude.{◌≡◌};
ghost use Rattle.script.specs.Refusals.{number_of, place_of};
ghost use Rattle.doors.specs.Doors.{door, read_door, match_door, refine_door, carry_door, carry_from_a, carry_from_b};
ghost use Rattle.doors.specs.Doors.{carry_all_door, carry_all_from_a, carry_all_from_b};
ghost use Rattle.doors.specs.Doors.{rows_door, summary_door, report_door};
ghost use Rattle.doors.specs.Doors.{write_door, records_door, chain_door};
ghost use Rattle.backbone.specs.Chaining.{chaining_of};
ghost use Rattle.records.specs.Listing.{listing_of};
ghost use Rattle.records.specs.Writing.{writing_of};
ghost use Rattle.refining.specs.Refining.{refining_of};
ghost use Rattle.reporting.specs.Reporting.{reporting_of};

use commands::bit;
use match_rows::span_of;
use reader::find::find_match;
use record_reader::read_records;
use refinement::Side;
use refusals::{number_of, place_of};
use script::Refusal;
use summary::sum_up;
use table::CLASSES;

// What a door on a script does with a refusal: its place is handed out, and its number returned.
fn refuse(refusal: Refusal, place: &mut usize) -> u32
    ensures number { result ≡ number_of refusal }
    ensures place_after { place.new ≡ place_of refusal }
{
    *place = place_of(refusal);
    number_of(refusal)
}

// What such a door does with an answer that is one number: it is handed out, or why there is none.
fn hand_out<T: Copy>(answer: Result<T, Refusal>, place: &mut usize, given: &mut T) -> u32
    ensures { record { number = result; place = place.new; given = given.new }
        ≡ door answer place.old given.old }
{
    match answer {
        Ok(number) => {
            *given = number;
            0
        }
        Err(refusal) => refuse(refusal, place),
    }
}

// Reads a script: p, q and the counts of matches and marks.
#[unsafe(no_mangle)]
pub extern "C" fn notchergrey_read(
    script: &[u8],
    place: &mut usize,
    p: &mut u32,
    q: &mut u32,
    count: &mut usize,
    mark_count: &mut usize,
) -> u32
    ensures { record {
      number = result;
      place = place.new;
      given =
          record {
            p = p.new;
            q = q.new;
            count = count.new;
            marks = mark_count.new;
          };
    }
        ≡ read_door script.now place.old
        (record {
          p = p.old;
          q = q.old;
          count = count.old;
          marks = mark_count.old;
        }) }
{
    match reader::read(script) {
        Ok(admitted) => {
            *p = admitted.p;
            *q = admitted.q;
            *count = admitted.count;
            *mark_count = admitted.marks;
            0
        }
        Err(refusal) => refuse(refusal, place),
    }
}

// One match of a script, by its number from 1; `reversed` becomes 0 or 1.
#[unsafe(no_mangle)]
pub extern "C" fn notchergrey_match(
    script: &[u8],
    number: u32,
    place: &mut usize,
    left_a: &mut u32,
    left_b: &mut u32,
    length: &mut u32,
    reversed: &mut u32,
) -> u32
    ensures { record {
      number = result;
      place = place.new;
      given =
          record {
            left_a = left_a.new;
            left_b = left_b.new;
            letters = length.new;
            reversed = reversed.new;
          };
    }
        ≡ match_door script.now number place.old
        (record {
          left_a = left_a.old;
          left_b = left_b.old;
          letters = length.old;
          reversed = reversed.old;
        }) }
{
    match find_match(script, number) {
        Ok(found) => {
            *left_a = found.left_a;
            *left_b = found.left_b;
            *length = found.length;
            *reversed = bit(found.reversed);
            0
        }
        Err(refusal) => refuse(refusal, place),
    }
}

// Writes the script of a list of records and a list of marks to the lent bytes; `length` becomes its length.
#[unsafe(no_mangle)]
pub extern "C" fn notchergrey_write(
    p: u32,
    q: u32,
    records: &[u32],
    marks: &[u32],
    script: &mut [u8],
    place: &mut usize,
    length: &mut usize,
) -> u32
    ensures length_after { record { number = result; place = place.new; given = length.new }
        ≡ write_door p q records.now marks.now script.old place.old
        length.old }
    ensures script_after { script.new
        ≡ (writing_of p q records.now marks.now script.old).script }
{
    hand_out(writer::write(p, q, records, marks, script), place, length)
}

// Reads a script into two lists: p, q and the counts of matches and marks, and their numbers in the lent ones.
#[unsafe(no_mangle)]
pub extern "C" fn notchergrey_read_records(
    script: &[u8],
    records: &mut [u32],
    marks: &mut [u32],
    place: &mut usize,
    p: &mut u32,
    q: &mut u32,
    count: &mut usize,
    mark_count: &mut usize,
) -> u32
    ensures mark_count_after { record {
      number = result;
      place = place.new;
      given =
          record {
            p = p.new;
            q = q.new;
            count = count.new;
            marks = mark_count.new;
          };
    }
        ≡ records_door script.now records.old marks.old place.old
        (record {
          p = p.old;
          q = q.old;
          count = count.old;
          marks = mark_count.old;
        }) }
    ensures records_after { records.new ≡ (listing_of script.now records.old marks.old).records }
    ensures marks_after { marks.new ≡ (listing_of script.now records.old marks.old).marks }
{
    match read_records(script, records, marks) {
        Ok(listed) => {
            *p = listed.p;
            *q = listed.q;
            *count = listed.count;
            *mark_count = listed.marks;
            0
        }
        Err(refusal) => refuse(refusal, place),
    }
}

// Makes the piece table of a script in the lent table; `rows` becomes the count of its rows.
#[unsafe(no_mangle)]
pub extern "C" fn notchergrey_refine(
    script: &[u8],
    table: &mut [u32],
    work: &mut [u32],
    place: &mut usize,
    rows: &mut usize,
) -> u32
    ensures rows_after { record { number = result; place = place.new; given = rows.new }
        ≡ refine_door script.now table.old work.old place.old
        rows.old }
    ensures table_after { table.new ≡ (refining_of script.now table.old work.old).table }
    ensures work_after { work.new ≡ (refining_of script.now table.old work.old).work }
{
    hand_out(refine::refine(script, table, work), place, rows)
}

// Finds the backbone of a script; `score`, `rows` and `length` become its score, the count of the table's rows and the
// count of its row numbers, which stand from the chain buffer's start.
#[unsafe(no_mangle)]
pub extern "C" fn notchergrey_chain(
    script: &[u8],
    price: u32,
    table: &mut [u32],
    work: &mut [u32],
    chain: &mut [u32],
    scores: &mut [u32],
    place: &mut usize,
    score: &mut u64,
    rows: &mut usize,
    length: &mut usize,
) -> u32
    ensures length_after { record {
      number = result;
      place = place.new;
      given = record { score = score.new; rows = rows.new; length = length.new };
    }
        ≡ chain_door script.now price table.old work.old chain.old
        scores.old place.old
        (record { score = score.old; rows = rows.old; length = length.old }) }
    ensures table_after { table.new
        ≡ (chaining_of script.now price table.old work.old chain.old
        scores.old).table }
    ensures work_after { work.new
        ≡ (chaining_of script.now price table.old work.old chain.old
        scores.old).work }
    ensures chain_after { chain.new
        ≡ (chaining_of script.now price table.old work.old chain.old
        scores.old).chain }
    ensures scores_after { scores.new
        ≡ (chaining_of script.now price table.old work.old chain.old
        scores.old).scores }
{
    match chain::chain(script, price, table, work, chain, scores) {
        Ok(chained) => {
            *score = chained.score;
            *rows = chained.rows;
            *length = chained.length;
            0
        }
        Err(refusal) => refuse(refusal, place),
    }
}

// Carries a position of one side over the match of this number.
fn carry_from(
    script: &[u8],
    number: u32,
    side: Side,
    position: u32,
    place: &mut usize,
    carried: &mut u32,
) -> u32
    ensures { record { number = result; place = place.new; given = carried.new }
        ≡ carry_door side script.now number position place.old carried.old }
{
    hand_out(
        carrying::carry(script, number, side, position),
        place,
        carried,
    )
}

// Carries a position of A to B over the match of this number.
#[unsafe(no_mangle)]
pub extern "C" fn notchergrey_carry_from_a(
    script: &[u8],
    number: u32,
    position: u32,
    place: &mut usize,
    carried: &mut u32,
) -> u32
    ensures { record { number = result; place = place.new; given = carried.new }
        ≡ carry_from_a script.now number position place.old carried.old }
{
    carry_from(script, number, Side::A, position, place, carried)
}

// Carries a position of B to A over the match of this number.
#[unsafe(no_mangle)]
pub extern "C" fn notchergrey_carry_from_b(
    script: &[u8],
    number: u32,
    position: u32,
    place: &mut usize,
    carried: &mut u32,
) -> u32
    ensures { record { number = result; place = place.new; given = carried.new }
        ≡ carry_from_b script.now number position place.old carried.old }
{
    carry_from(script, number, Side::B, position, place, carried)
}

// Carries positions of one side over the match of this number, all into the lent numbers or none.
fn carry_all_from(
    script: &[u8],
    number: u32,
    side: Side,
    positions: &[u32],
    carried: &mut [u32],
    place: &mut usize,
) -> u32
    ensures { record { number = result; place = place.new; given = carried.new }
        ≡ carry_all_door side script.now number positions.now place.old
        carried.old }
{
    match carrying_all::carry_all(script, number, side, positions, carried) {
        Ok(()) => 0,
        Err(refusal) => refuse(refusal, place),
    }
}

// Carries positions of A to B over the match of this number.
#[unsafe(no_mangle)]
pub extern "C" fn notchergrey_carry_all_from_a(
    script: &[u8],
    number: u32,
    positions: &[u32],
    carried: &mut [u32],
    place: &mut usize,
) -> u32
    ensures { record { number = result; place = place.new; given = carried.new }
        ≡ carry_all_from_a script.now number positions.now place.old
        carried.old }
{
    carry_all_from(script, number, Side::A, positions, carried, place)
}

// Carries positions of B to A over the match of this number.
#[unsafe(no_mangle)]
pub extern "C" fn notchergrey_carry_all_from_b(
    script: &[u8],
    number: u32,
    positions: &[u32],
    carried: &mut [u32],
    place: &mut usize,
) -> u32
    ensures { record { number = result; place = place.new; given = carried.new }
        ≡ carry_all_from_b script.now number positions.now place.old
        carried.old }
{
    carry_all_from(script, number, Side::B, positions, carried, place)
}

// The rows of the match of this number: from the table's number at `start` up to its number at `end`.
#[unsafe(no_mangle)]
pub extern "C" fn notchergrey_rows_of(
    table: &[u32],
    number: u32,
    start: &mut usize,
    end: &mut usize,
) -> u32
    ensures { record { number = result; start = start.new; end = end.new }
        ≡ rows_door table.now number }
{
    let span = span_of(table, number);
    *start = span.start;
    *end = span.end;
    0
}

// The summary of a table.
#[unsafe(no_mangle)]
pub extern "C" fn notchergrey_summary(
    table: &[u32],
    pieces: &mut usize,
    distinct: &mut usize,
    covers: &mut [u64; 2],
    classes: &mut [usize; CLASSES],
) -> u32
    ensures { record {
      number = result;
      pieces = pieces.new;
      distinct = distinct.new;
      covers = covers.new;
      classes = classes.new;
    }
        ≡ summary_door table.now }
{
    let summary = sum_up(table);
    *pieces = summary.pieces;
    *distinct = summary.distinct;
    let letters = summary.covers;
    *covers = letters;
    let counts = summary.classes;
    *classes = counts;
    0
}

// The text that the program prints for a script; `length` becomes its length, or the length that it needs where the
// buffer is too short.
#[unsafe(no_mangle)]
pub extern "C" fn notchergrey_report(script: &[u8], text: &mut [u8], length: &mut usize) -> u32
    ensures length_after { record { number = result; length = length.new }
        ≡ report_door script.now text.old }
    ensures text_after { text.new ≡ (reporting_of script.now text.old).text }
{
    match report::report(script, text) {
        Ok(n) => {
            *length = n;
            0
        }
        Err(short) => {
            *length = short.needed;
            number_of(Refusal::BufferTooShort)
        }
    }
}
