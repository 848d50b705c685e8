// One command at the start of a remainder of the script: what stands there, without what it means for the script.
#![tactic(auto)]

ghost use Rattle.std.specs.Prelude.{◌≡◌, ◌+◌, ◌≤◌, eqb, length};
ghost use Rattle.script.specs.Commands.{match_width, number_at, command_of, lengths_of, fields_of, match_of};
ghost use Rattle.script.specs.Commands.{mark_of, end_of, bit_of};

use script::command::{Command, LENGTHS_WIDTH, MARK_WIDTH, MATCH_WIDTH, Mark, Match};

// The number in the four bytes from an offset on, the least first.
pub fn number_at(rest: &[u8], at: usize) -> u32
    requires { at + 4 ≤ length rest.now }
    ensures { result ≡ number_at rest.now at }
{
    u32::from_le_bytes([rest[at], rest[at + 1], rest[at + 2], rest[at + 3]])
}

fn read_lengths(rest: &[u8]) -> Command
    ensures { result ≡ lengths_of rest.now }
{
    if rest.len() < LENGTHS_WIDTH {
        Command::LengthsCutShort
    } else {
        Command::Lengths {
            p: number_at(rest, 1),
            q: number_at(rest, 5),
        }
    }
}

// The three numbers of a match command, beside the direction that its first byte tells.
pub fn read_fields(rest: &[u8], reversed: bool) -> Match
    requires { match_width ≤ length rest.now }
    ensures { result ≡ fields_of reversed rest.now }
{
    Match {
        track_a: 0,
        track_b: 1,
        left_a: number_at(rest, 1),
        left_b: number_at(rest, 5),
        length: number_at(rest, 9),
        reversed,
    }
}

fn read_match(rest: &[u8], reversed: bool) -> Command
    ensures { result ≡ match_of reversed rest.now }
{
    if rest.len() < MATCH_WIDTH {
        Command::MatchCutShort
    } else {
        Command::Pairing(read_fields(rest, reversed))
    }
}

fn read_mark(rest: &[u8]) -> Command
    ensures { result ≡ mark_of rest.now }
{
    if rest.len() < MARK_WIDTH {
        Command::MarkCutShort
    } else {
        Command::Marking(Mark {
            side: rest[1],
            position: number_at(rest, 2),
        })
    }
}

fn read_end(rest: &[u8]) -> Command
    ensures { result ≡ end_of rest.now }
{
    if 1 < rest.len() {
        Command::EndThenMore
    } else {
        Command::End
    }
}

// Whether a match that begins with this byte is a reversed one.
pub fn is_reversed(code: u8) -> bool
    ensures { result ≡ eqb code 0x52 }
{
    code == 0x52
}

// A direction as a number: 0 direct, 1 reversed.
pub fn bit(reversed: bool) -> u32
    ensures { result ≡ bit_of reversed }
{
    u32::from(reversed)
}

// The command at the start of a remainder.
pub fn read_command(rest: &[u8]) -> Command
    ensures { result ≡ command_of rest.now }
{
    if rest.is_empty() {
        return Command::Missing;
    }
    match rest[0] {
        0x4C => read_lengths(rest),
        // One arm for both directions, since scripts mix them in no order.
        code @ (0x44 | 0x52) => read_match(rest, is_reversed(code)),
        0x4D => read_mark(rest),
        0x45 => read_end(rest),
        _ => Command::Unknown,
    }
}
