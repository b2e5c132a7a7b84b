// The odometer above the transport: turn totals in, a distance out.
#![tactic(auto)]

mod distances;
mod outcomes;
mod totals;

ghost use Rattle.std.specs.Prelude.{◌≡◌, ◌≤◌};
ghost use Rattle.odometer.specs.Odometer as says;

pub use outcomes::Outcome;
use refusals::Refusal;
pub use totals::total_in;
use verdict::{Answer, Kind};

// The last total heard, and the turns since the first one, which set the base.
#[derive(Clone, Copy, Debug, PartialEq, Eq)]
pub struct Odometer {
    pub channel: usize,
    pub circumference: u64,
    // Kept: C lends and gets back the five numbers, `last` also of an odometer without a base (boherlin_hear).
    pub based: bool,
    pub last: u32,
    pub turns: u64,
}

// The odometer after a cargo, what it made of it, and the total that the cargo carried.
#[derive(Clone, Copy, Debug, PartialEq, Eq)]
pub struct Heard {
    pub odometer: Odometer,
    pub outcome: Outcome,
    pub carried: Option<u32>,
}

impl Odometer {
    pub const SHORTEST: u64 = 1;

    pub const LONGEST: u64 = 10000;

    pub const HALF_ROUND: u64 = 2147483648;

    // The fresh odometer. A circumference out of range is kept, and each call answers 39.
    pub fn fresh(channel: usize, circumference: u64) -> Odometer
        ensures { result ≡ says.fresh_odometer channel circumference }
    {
        Odometer {
            channel,
            circumference,
            based: false,
            last: 0,
            turns: 0,
        }
    }

    #[tactic(auto, using(laws::proofs::Tests::tests), unfolding(crate::specs::Odometer::in_range))]
    fn in_range(self) -> bool
        ensures { result ≡ says.in_range self.circumference }
    {
        (Odometer::SHORTEST..=Odometer::LONGEST).contains(&self.circumference)
    }

    fn stay(self, outcome: Outcome, carried: Option<u32>) -> Heard
        ensures { result ≡ says.unchanged self outcome carried }
    {
        Heard {
            odometer: self,
            outcome,
            carried,
        }
    }

    fn refuse(self, refusal: Refusal, carried: Option<u32>) -> Heard
        ensures { result ≡ says.unchanged self (Outcome.Refused refusal) carried }
    {
        self.stay(Outcome::Refused(refusal), carried)
    }

    // How many turns a total is ahead of the last one; the first sets the base.
    #[tactic(auto, unfolding(crate::specs::Odometer::advance_of))]
    fn advance(self, total: u32) -> u64
        ensures { result ≡ says.advance_of self total }
    {
        if self.based {
            total.wrapping_sub(self.last) as u64
        } else {
            0
        }
    }

    #[tactic(auto, using(laws::proofs::Tests::tests, crate::proofs::Room::fitting, crate::proofs::Room::factor), unfolding(crate::specs::Odometer::on_total))]
    fn on_total(self, total: u32) -> Heard
        requires { 1 ≤ self.circumference }
        ensures { result ≡ says.on_total self total }
    {
        let advance = self.advance(total);
        if Odometer::HALF_ROUND <= advance {
            return self.refuse(Refusal::TotalBehind, Some(total));
        }
        if !distances::fits(self.turns, advance, self.circumference) {
            return self.refuse(Refusal::LongDistance, Some(total));
        }
        Heard {
            odometer: Odometer {
                based: true,
                last: total,
                turns: self.turns + advance,
                ..self
            },
            outcome: outcomes::accepted(self.based, advance),
            carried: Some(total),
        }
    }

    // Hears a cargo that was delivered on a channel.
    #[tactic(auto, using(laws::proofs::Tests::tests, crate::proofs::Room::in_range_lem), unfolding(crate::specs::Odometer::hear, crate::specs::Odometer::on_carried))]
    pub fn hear(self, channel: usize, cargo: &[u8]) -> Heard
        ensures { result ≡ says.hear self channel cargo.now }
    {
        let carried = total_in(cargo);
        if !self.in_range() {
            return self.refuse(Refusal::Circumference, carried);
        }
        if channel != self.channel {
            return self.stay(Outcome::Passed, carried);
        }
        match carried {
            None => self.refuse(Refusal::NoTotal, carried),
            Some(total) => self.on_total(total),
        }
    }

    // Hears what a receiver answered to a transfer, with the cargo buffer after it.
    pub fn hear_answer(self, answer: Answer, cargo: &[u8]) -> Heard
        ensures { result ≡ says.hear_answer self answer cargo.now }
    {
        let Kind::Delivered { channel, .. } = answer.kind else {
            return self.pass_over();
        };
        self.hear(channel, verdict::delivered(answer, cargo))
    }

    #[tactic(auto, using(laws::proofs::Tests::tests), unfolding(crate::specs::Odometer::pass_over))]
    fn pass_over(self) -> Heard
        ensures { result ≡ says.pass_over self }
    {
        if self.in_range() {
            self.stay(Outcome::Passed, None)
        } else {
            self.refuse(Refusal::Circumference, None)
        }
    }
}
