// The commands of a script that was admitted: what one says, with nothing judged again.
ghost use Rattle.std.specs.Prelude.{◌≡◌, ◌≢◌, ◌+◌, ◌≤◌, ◌<◌, length, get_or};
ghost use Rattle.script.specs.Commands.{match_width, mark_width};
ghost use Rattle.reader.specs.Walking.{match_seen, mark_seen, next_of};

use commands::{is_reversed, number_at};
use script::command::{Mark, Match};
use script::step::Step;

// The match whose command stands at the offset.
pub fn match_at(script: &[u8], at: usize) -> Match
    requires { at + match_width ≤ length script.now }
    ensures { result ≡ match_seen script.now at }
{
    Match {
        track_a: 0,
        track_b: 1,
        left_a: number_at(script, at + 1),
        left_b: number_at(script, at + 5),
        length: number_at(script, at + 9),
        reversed: is_reversed(script[at]),
    }
}

// The mark whose command stands at the offset.
fn mark_at(script: &[u8], at: usize) -> Mark
    requires { at + mark_width ≤ length script.now }
    ensures { result ≡ mark_seen script.now at }
{
    Mark {
        side: script[at + 1],
        position: number_at(script, at + 2),
    }
}

// What the command at the offset does, if it is an end, a mark or a match.
pub fn next_at(script: &[u8], at: usize) -> Step
    requires at_in_bounds { at < length script.now }
    requires mark_width_in_bounds { get_or script.now at 0 ≡ 0x4D → at + mark_width ≤ length script.now }
    requires match_width_in_bounds { get_or script.now at 0 ≢ 0x45 → get_or script.now at 0 ≢ 0x4D → at + match_width ≤ length script.now }
    ensures { result ≡ next_of script.now at }
{
    match script[at] {
        0x45 => Step::Finish,
        0x4D => Step::Keep(mark_at(script, at)),
        _ => Step::Take(match_at(script, at)),
    }
}
