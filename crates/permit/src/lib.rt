// Leave to write on the UART: a Notification allows one transfer.
#![tactic(auto)]

mod judge;
mod send;

ghost use Rattle.std.specs.Prelude.{◌≡◌};
ghost use Rattle.permit.specs.Permit as permits;

use listener::News;
pub use send::Allowed;

// The room that a Notification announced, and the clock when it came, in milliseconds. One holds a permit or none.
#[derive(Clone, Copy, Debug, PartialEq, Eq)]
pub struct Permit {
    pub room: u16,
    pub came: u64,
}

impl Permit {
    // What a Notification of `room` bytes allows, read at this clock.
    pub fn granted(room: u16, clock: u64) -> Permit
        ensures { result ≡ permits.granted room clock }
    {
        Permit { room, came: clock }
    }

    // What is held after news, heard at this clock: a Notification replaces it.
    #[tactic(auto, unfolding(crate::specs::Permit::heard))]
    pub fn hear(held: Option<Permit>, news: News, clock: u64) -> Option<Permit>
        ensures { result ≡ permits.heard held news clock }
    {
        match news {
            News::Notice { room } => Some(Permit::granted(room, clock)),
            _ => held,
        }
    }
}
