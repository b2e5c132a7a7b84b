// What an odometer makes of a cargo.
ghost use Rattle.std.specs.Prelude.{◌≡◌};
ghost use Rattle.odometer.specs.Odometer as says;

use refusals::Refusal;

#[derive(Clone, Copy, Debug, PartialEq, Eq)]
pub enum Outcome {
    // a cargo on another channel, or none
    Passed,
    // the first total
    Base,
    // so many turns on
    Advanced { turns: u64 },
    Refused(Refusal),
}

impl Outcome {
    // Document 02's number of this outcome.
    // Kept: of one shape with `Event::number` of reader, near `News::number`; no plainer: each promises its own enum's.
    pub fn number(self) -> u8
        ensures { result ≡ says.number_of self }
    {
        match self {
            Outcome::Refused(refusal) => refusal.number(),
            _ => 0,
        }
    }
}

pub(crate) fn accepted(based: bool, turns: u64) -> Outcome
    ensures { result ≡ says.accepted based turns }
{
    if based {
        Outcome::Advanced { turns }
    } else {
        Outcome::Base
    }
}
