// Runs the lines of 01, "Small scripts at the edges", that carry no M, and prints what the library answers to each.
// The slow program prints the same lines, and the two are compared: a line that a failed write loses shows there.
#![tactic(auto)]

ghost use Rattle.std.specs.Prelude.{◌≡◌, ◌++◌, ◌+◌, ◌*◌, ◌≤◌, length};
ghost use Rattle.text.specs.Putting.{Put};
ghost use Rattle.edge_lines.specs.Scripts.{many};
ghost use Rattle.edge_answers.specs.Lines.{carried_line};
ghost use Rattle.edge_lines.specs.AllLines.{work_lines, touching_lines, long_lines, many_lines, edge_lines};

use edge_answers::{put_carried, put_read, put_refined};
use refinement::Side;
use std::io;
use text::{put_byte, put_bytes};

// With a table of 40 numbers, 32 of work are enough and 31 are not.
fn put_work_lines(text: &mut [u8], at: usize) -> usize
    requires { at ≤ 200 }
    ensures put { Put work_lines text.old at text.new result }
    ensures upper_bound { result ≤ at + 142 }
{
    let run = b"L\x0A\0\0\0\x0A\0\0\0D\0\0\0\0\0\0\0\0\x06\0\0\0R\x02\0\0\0\x03\0\0\0\x05\0\0\0E";
    let mut enough = [0; 32];
    let mut short = [0; 31];
    let next = put_refined(text, at, b"work 32", run, &mut enough);
    put_refined(text, next, b"work 31", run, &mut short)
}

// Position 4 carried over from one side, by match 1 and by match 2.
fn put_carried_lines(
    text: &mut [u8],
    at: usize,
    first: &[u8],
    second: &[u8],
    script: &[u8],
    side: Side,
) -> usize
    requires { (at ≤ 600) × (length first.now ≤ 20) × (length second.now ≤ 20) }
    ensures put { Put
        (carried_line first.now script.now 1 side 4
        ++ carried_line second.now script.now 2 side 4) text.old at text.new result }
    ensures upper_bound { result ≤ at + 142 }
{
    let next = put_carried(text, at, first, script, 1, side, 4);
    put_carried(text, next, second, script, 2, side, 4)
}

// Two matches that touch at the position 4, which belongs to both.
fn put_touching_lines(text: &mut [u8], at: usize) -> usize
    requires { at ≤ 200 }
    ensures put { Put touching_lines text.old at text.new result }
    ensures upper_bound { result ≤ at + 355 }
{
    let touching =
        b"L\x08\0\0\0\x08\0\0\0D\0\0\0\0\0\0\0\0\x04\0\0\0D\x04\0\0\0\x04\0\0\0\x04\0\0\0E";
    let mut work = [0; 32];
    let rows = put_refined(text, at, b"touching", touching, &mut work);
    let a = put_carried_lines(
        text,
        rows,
        b"touching 1 A 4",
        b"touching 2 A 4",
        touching,
        Side::A,
    );
    put_carried_lines(
        text,
        a,
        b"touching 1 B 4",
        b"touching 2 B 4",
        touching,
        Side::B,
    )
}

// The longest sequence, and one letter more.
fn put_long_lines(text: &mut [u8], at: usize) -> usize
    requires { at ≤ 600 }
    ensures put { Put long_lines text.old at text.new result }
    ensures upper_bound { result ≤ at + 142 }
{
    let longest = b"L\x00\xCA\x9A\x3B\x01\0\0\0E";
    let longer = b"L\x01\xCA\x9A\x3B\x01\0\0\0E";
    let next = put_read(text, at, b"lengths 1000000000 1", longest);
    put_read(text, next, b"lengths 1000000001 1", longer)
}

// A script of so many matches of one letter each, which fills the buffer.
fn put_many(script: &mut [u8], count: usize)
    requires count_value { 10 + 13 * count ≡ length script.old }
    requires count_bound { count ≤ 4096 }
    ensures { script.new ≡ many count }
{
    let mut at = put_bytes(script, 0, b"L\x01\0\0\0\x01\0\0\0");
    for _ in 0..count {
        at = put_bytes(script, at, b"D\0\0\0\0\0\0\0\0\x01\0\0\0");
    }
    put_byte(script, at, b'E');
}

// The most matches, and one more.
fn put_many_lines(text: &mut [u8], at: usize) -> usize
    requires { at ≤ 800 }
    ensures put { Put many_lines text.old at text.new result }
    ensures upper_bound { result ≤ at + 142 }
{
    let mut most = [0; 26_634];
    let mut more = [0; 26_647];
    put_many(&mut most, 2_048);
    put_many(&mut more, 2_049);
    let next = put_read(text, at, b"matches 2048", &most);
    put_read(text, next, b"matches 2049", &more)
}

fn put_lines(text: &mut [u8]) -> usize
    ensures put { Put edge_lines text.old 0 text.new result }
    ensures upper_bound { result ≤ 1024 }
{
    let work = put_work_lines(text, 0);
    let touching = put_touching_lines(text, work);
    let long = put_long_lines(text, touching);
    put_many_lines(text, long)
}

fn main(rt: HostRuntime) -> io::Result<()> {
    let mut text = [0; 1024];
    let length = put_lines(&mut text);
    rt.write_all(&text[..length])
}
