// A line of the trip as text, put as in `text`.
ghost use Rattle.std.specs.Prelude.{◌≡◌, ◌++◌, ◌+◌, ◌≤◌, length, take};
ghost use Rattle.lines.specs.Trip as says;

use crate::text::{LINE_FEED, TAB, put, put_number, put_or_dash};
use odometer::{Heard, Outcome};

#[tactic(auto, using(crate::proofs::Numbers::decimal_short, crate::proofs::Texts::dash_short))]
fn put_standing(heard: Heard, line: &mut [u8; 128], at: usize) -> usize
    requires { at + 63 ≤ 128 }
    ensures value { result ≡ at + length (says.standing heard.odometer heard.carried) }
    ensures line_after { take result line.new ≡ take at line.old ++ says.standing heard.odometer heard.carried }
{
    let at = put_or_dash(heard.carried.map(|total| total as u64), TAB, line, at);
    let at = put_number(heard.odometer.turns, TAB, line, at);
    put_or_dash(heard.odometer.distance().ok(), LINE_FEED, line, at)
}

// The line of what an odometer made of a cargo, from the front: how many bytes it has.
#[tactic(auto, using(crate::proofs::Numbers::decimal_short))]
pub(crate) fn spell(heard: Heard, line: &mut [u8; 128]) -> usize
    ensures value { result ≡ length (says.line_of_heard heard) }
    ensures line_after { take result line.new ≡ says.line_of_heard heard }
{
    let at = match heard.outcome {
        Outcome::Passed => return 0,
        Outcome::Base => put(b"base", TAB, line, 0),
        Outcome::Advanced { .. } => put(b"advanced", TAB, line, 0),
        Outcome::Refused(refusal) => {
            let at = put(b"refused", b'-', line, 0);
            put_number(refusal.number() as u64, TAB, line, at)
        }
    };
    put_standing(heard, line, at)
}
