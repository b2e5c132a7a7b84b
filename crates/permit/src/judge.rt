// What a permit says to a transfer: 43, 45 or 44.
ghost use Rattle.std.specs.Prelude.{◌≡◌};
ghost use Rattle.permit.specs.Permit as permits;

use crate::Permit;
use refusals::Refusal;

impl Permit {
    // Whether it has ended. The difference is formed only where the clock is not earlier.
    #[tactic(auto, unfolding(crate::specs::Permit::ended))]
    fn has_ended(self, clock: u64, timeout: u32) -> bool
        ensures { result ≡ permits.ended self.came clock timeout }
    {
        clock < self.came || u64::from(timeout) < clock - self.came
    }
}

// `length` is the L of the transfer's header.
// Kept: `clock` and `timeout` apart, as request 14 names them and C passes them (boherlin_permitted_send).
#[tactic(auto, using(laws::proofs::Tests::tests), unfolding(crate::specs::Permit::refusal))]
pub(crate) fn ask(
    held: Option<Permit>,
    length: usize,
    clock: u64,
    timeout: u32,
) -> Result<(), Refusal>
    ensures { result ≡ permits.refusal held length clock timeout }
{
    let permit = held.ok_or(Refusal::NoPermit)?;
    if permit.has_ended(clock, timeout) {
        return Err(Refusal::EndedPermit);
    }
    if usize::from(permit.room) < length {
        return Err(Refusal::SmallPermit);
    }
    Ok(())
}
