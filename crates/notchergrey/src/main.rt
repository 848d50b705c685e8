// Reads a match script from standard input and prints its piece table, or the refusal with its place. If the input
// cannot be read, or the text cannot be written, it says why on standard error, where no answer ever puts a byte: that
// is how a caller tells a failure from an answer, since the exit status is 0 for both.
#![tactic(auto)]

ghost use Rattle.std.specs.Prelude.{◌≡◌, ◌<◌, ◌≤◌, length, take};
ghost use Rattle.io.specs.Counts.{IsPrefixLen};
ghost use Rattle.reporting.specs.Reporting.{report_of, longest_text};
ghost use Rattle.streams.specs.Counting.{Went};

use brief_report::report_brief;
use report::LONGEST_TEXT;
use reporting::Brief;
use script::limits::LONGEST_SCRIPT;
use std::env::{Env, FillError};
use std::io::{Error, Write};
use streams::{Broken, read_input, write_text};

// A longer script has more matches than a small table has rows.
const SHORT_SCRIPT: usize = 842;
// A text of so few rows has fewer bytes.
const SHORT_TEXT: usize = 8192;

// The text that is printed for these bytes, at the buffer's start; the answer is its length. The buffer has room for
// every text, so the second case is never met.
fn make_text(script: &[u8], text: &mut [u8]) -> usize
    requires { longest_text ≤ length text.old }
    ensures prefix_len { IsPrefixLen result text.new }
    ensures text_after { take result text.new ≡ report_of script.now }
{
    match report::report(script, text) {
        Ok(length) => length,
        Err(_) => 0,
    }
}

// The same of a table of few rows; 0 where it needs more, or the text more bytes.
fn make_brief(script: &[u8], text: &mut [u8]) -> usize
    ensures prefix_len { IsPrefixLen result text.new }
    ensures text_after { 0 < result → take result text.new ≡ report_of script.now }
{
    match report_brief(script, text) {
        Brief::Answered(Ok(length)) => length,
        _ => 0,
    }
}

fn print_large<W: Write>(output: &mut W, script: &[u8]) -> Result<usize, Broken>
    ensures { Went (length (report_of script.now)) result }
{
    let mut text = [0; LONGEST_TEXT];
    let length = make_text(script, &mut text);
    write_text(output, script, &text[..length])
}

// A short text is made in a small buffer: zeros for every text would be most of what a short script costs.
fn print_short<W: Write>(output: &mut W, script: &[u8]) -> Result<usize, Broken>
    ensures { Went (length (report_of script.now)) result }
{
    let mut text = [0; SHORT_TEXT];
    let length = make_brief(script, &mut text);
    if length == 0 {
        return print_large(output, script);
    }
    write_text(output, script, &text[..length])
}

// Says what failed and why, in the system's words without their number.
fn fail(rt: &(impl Eprint + Alloc), what: &str, error: &Error) {
    match format!(in rt.alloc(); "{error}") {
        Ok(said) => {
            let words = said.as_str();
            let why = match words.split_once(" (os error ") {
                Some((before, _)) => before,
                None => words,
            };
            let _ = eprintln!(rt; "notchergrey: {what}: {why}");
        }
        Err(_) => {
            let _ = eprintln!(rt; "notchergrey: {what}: {error}");
        }
    }
}

// Says it if the text could not be written whole.
fn tell(rt: &(impl Eprint + Alloc), went: Result<usize, Broken>) {
    if let Err(broken) = went {
        fail(rt, "standard output", &broken.error);
    }
}

// Whether the program was given an argument, be it text or not.
fn has_argument(rt: &impl Env) -> bool {
    let mut start = [0; 1];
    !matches!(rt.arg(1, &mut start), Err(FillError::NotPresent))
}

fn main(rt: HostRuntime) {
    if has_argument(&rt) {
        let _ = eprintln!(rt; "usage: notchergrey <SCRIPT; it takes no argument");
        return;
    }
    let mut bytes = [0; LONGEST_SCRIPT + 1];
    let mut input = rt.stdin();
    let mut output = rt.stdout();
    match read_input(&mut input, &mut bytes) {
        Ok(count) => {
            // Called here too, the large text keeps a stack of its own, which a short script never touches.
            if SHORT_SCRIPT < count {
                tell(&rt, print_large(&mut output, &bytes[..count]));
            } else {
                tell(&rt, print_short(&mut output, &bytes[..count]));
            }
        }
        Err(error) => fail(&rt, "standard input", &error),
    }
}
