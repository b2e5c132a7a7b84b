// Turns times circumference, where 64 bits hold it.
ghost use Rattle.std.specs.Prelude.{◌≡◌, ◌+◌, ◌*◌, ◌≤◌};
ghost use Rattle.odometer.specs.Odometer as says;

use crate::Odometer;
use refusals::Refusal;

// Whether 64 bits hold the distance of so many turns and so many more.
#[tactic(auto, using(crate::proofs::Room::held, crate::proofs::Room::too_many))]
pub(crate) fn fits(turns: u64, more: u64, circumference: u64) -> bool
    requires { 1 ≤ circumference }
    ensures { result ≡ says.fits ((turns + more) * circumference) }
{
    match turns.checked_add(more) {
        Some(sum) => sum.checked_mul(circumference).is_some(),
        None => false,
    }
}

impl Odometer {
    // The distance in millimetres, or why it is not told.
    #[tactic(auto, using(laws::proofs::Tests::tests, crate::proofs::Room::told_or), unfolding(crate::specs::Odometer::distance_of))]
    pub fn distance(self) -> Result<u64, Refusal>
        ensures { result ≡ says.distance_of self }
    {
        if !self.in_range() {
            return Err(Refusal::Circumference);
        }
        self.turns
            .checked_mul(self.circumference)
            .ok_or(Refusal::LongDistance)
    }
}
