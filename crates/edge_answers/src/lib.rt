// Lines put into a lent text from a place on: a heading, and what the library answers. The place behind is returned.
#![tactic(auto)]

ghost use Rattle.std.specs.Prelude.{◌≡◌, ◌+◌, ◌≤◌, length, replicate};
ghost use Rattle.refining.specs.Refining.{refining_of};
ghost use Rattle.text.specs.Putting.{Put};
ghost use Rattle.edge_answers.specs.Lines.{entry, refused_text, read_line, refined_line, carried_line};

use refinement::Side;
use refusals::{number_of, place_of};
use script::Refusal;
use text::{put_byte, put_bytes, put_number};

// A word and a number in decimal.
fn put_entry(text: &mut [u8], at: usize, word: &[u8], number: u64) -> usize
    requires { at + length word.now ≤ 4096 }
    ensures put { Put (entry word.now number) text.old at text.new result }
    ensures upper_bound { result ≤ at + length word.now + 20 }
{
    let next = put_bytes(text, at, word);
    put_number(text, next, number)
}

fn put_refusal(text: &mut [u8], at: usize, refusal: Refusal) -> usize
    requires { at ≤ 2048 }
    ensures put { Put (refused_text refusal) text.old at text.new result }
    ensures upper_bound { result ≤ at + 51 }
{
    let next = put_entry(text, at, b" refused ", number_of(refusal) as u64);
    let next = put_entry(text, next, b" ", place_of(refusal) as u64);
    put_byte(text, next, b'\n')
}

pub fn put_read(text: &mut [u8], at: usize, heading: &[u8], script: &[u8]) -> usize
    requires { (at ≤ 1024) × (length heading.now ≤ 20) }
    ensures put { Put (read_line heading.now script.now) text.old at text.new result }
    ensures upper_bound { result ≤ at + 71 }
{
    let next = put_bytes(text, at, heading);
    match reader::read(script) {
        Ok(_) => put_bytes(text, next, b" admitted\n"),
        Err(refusal) => put_refusal(text, next, refusal),
    }
}

// Every table here has 40 numbers.
pub fn put_refined(
    text: &mut [u8],
    at: usize,
    heading: &[u8],
    script: &[u8],
    work: &mut [u32],
) -> usize
    requires { (at ≤ 1024) × (length heading.now ≤ 20) }
    ensures put { Put (refined_line heading.now script.now work.old) text.old at
        text.new result }
    ensures upper_bound { result ≤ at + 71 }
    ensures work { work.new ≡ (refining_of script.now (replicate 40 0) work.old).work }
{
    let next = put_bytes(text, at, heading);
    let mut table = [0; 40];
    match refine::refine(script, &mut table, work) {
        Ok(count) => {
            let next = put_entry(text, next, b" rows ", count as u64);
            put_byte(text, next, b'\n')
        }
        Err(refusal) => put_refusal(text, next, refusal),
    }
}

pub fn put_carried(
    text: &mut [u8],
    at: usize,
    heading: &[u8],
    script: &[u8],
    number: u32,
    side: Side,
    position: u32,
) -> usize
    requires { (at ≤ 1024) × (length heading.now ≤ 20) }
    ensures put { Put (carried_line heading.now script.now number side position) text.old at
        text.new result }
    ensures upper_bound { result ≤ at + 71 }
{
    let next = put_bytes(text, at, heading);
    match carrying::carry(script, number, side, position) {
        Ok(position) => {
            let next = put_entry(text, next, b" to ", position as u64);
            put_byte(text, next, b'\n')
        }
        Err(refusal) => put_refusal(text, next, refusal),
    }
}
