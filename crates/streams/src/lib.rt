// How the program reads its input and writes its text: by reads and writes that may move a part, be interrupted, or fail.
#![tactic(auto)]

ghost use Rattle.std.specs.Prelude.{true, ◌≡◌, ◌+◌, ◌<◌, ◌≤◌, length, take, drop};
ghost use Rattle.reporting.specs.Reporting.{input_room, report_of};
ghost use Rattle.streams.specs.Counting.{count_of, Went};

use std::io::{Error, ErrorKind, Read, Write};
use std::thread::yield_now;

// So often a call that was interrupted, or found its stream busy, is made again: for a second or two.
const TRIES: u32 = 1_000_000;

// How many bytes of the text went out before a write that failed, and why it did.
#[derive(Drop)]
pub struct Broken {
    pub done: usize,
    pub error: Error,
}

// Whether the call that failed so is worth another of the tries that are left.
fn again(tries: u32, error: &Error) -> bool
    ensures { result ≡ true → 0 < tries }
{
    if tries == 0 {
        return false;
    }
    match error.kind() {
        ErrorKind::WouldBlock => {
            yield_now();
            true
        }
        ErrorKind::Interrupted => true,
        _ => false,
    }
}

// One read, to behind the first `done` bytes of the buffer: what came before is kept.
fn read_more<R: Read>(input: &mut R, bytes: &mut [u8], done: usize) -> Result<usize, Error>
    requires { done ≤ length bytes.old }
    ensures bytes_unchanged { take done bytes.new ≡ take done bytes.old }
    ensures result_in_bounds { done + count_of result ≤ length bytes.old }
{
    input.read(&mut bytes[done..])
}

// Reads until the buffer is full or the input ends. What came before a read that fails is not answered, since it would
// be taken for a shorter script.
pub fn read_input<R: Read>(input: &mut R, bytes: &mut [u8]) -> Result<usize, Error>
    requires { input_room ≡ length bytes.old }
    ensures { count_of result ≤ length bytes.new }
{
    let mut done = 0;
    let mut tries = TRIES;
    // Not a `for`: a read moves any part of what is asked for.
    while done < bytes.len() {
        match read_more(input, bytes, done) {
            Ok(0) => return Ok(done),
            Ok(more) => done += more,
            Err(error) if again(tries, &error) => tries -= 1,
            Err(error) => return Err(error),
        }
    }
    Ok(done)
}

// One write, and the program's only one to standard output. It is handed the script and how many bytes went out already
// for its contract's sake: what goes to the writer is the rest of the text of what was read.
fn write_rest<W: Write>(
    output: &mut W,
    _script: &[u8],
    _done: usize,
    rest: &[u8],
) -> Result<usize, Error>
    requires { rest.now ≡ drop _done (report_of _script.now) }
    ensures { count_of result ≤ length rest.now }
{
    output.write(rest)
}

// Writes until all of the text went out or a write fails.
pub fn write_text<W: Write>(output: &mut W, script: &[u8], text: &[u8]) -> Result<usize, Broken>
    requires { text.now ≡ report_of script.now }
    ensures { Went (length text.now) result }
{
    let mut done = 0;
    let mut tries = TRIES;
    // Not a `for`: a write moves any part of what is left.
    while done < text.len() {
        match write_rest(output, script, done, &text[done..]) {
            Ok(0) => return Err(Broken {
                done,
                error: Error::from(ErrorKind::WriteZero),
            }),
            Ok(more) => done += more,
            Err(error) if again(tries, &error) => tries -= 1,
            Err(error) => return Err(Broken { done, error }),
        }
    }
    Ok(done)
}
