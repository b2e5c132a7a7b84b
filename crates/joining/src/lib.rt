// One channel of a receiver, the cargo under way, and where a new transfer's bytes go.
#![tactic(auto)]

mod channels;
mod joinings;

ghost use Rattle.std.specs.Prelude.{◌≡◌};
ghost use Rattle.joining.specs.Joining.{held_of};

pub use channels::Channel;
pub use joinings::{Joining, carried_of, place};

// A cargo under way: of its `total` bytes the first `held` are there.
#[derive(Clone, Copy, Debug, PartialEq, Eq)]
pub struct Cargo {
    pub channel: usize,
    pub total: usize,
    pub held: usize,
}

// How many bytes of the cargo under way, if any, are held.
pub fn held(underway: Option<Cargo>) -> usize
    ensures { result ≡ held_of underway }
{
    underway.map_or(0, |cargo| cargo.held)
}
