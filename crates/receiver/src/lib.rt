// One direction's receiver: it takes transfers and reassembles cargoes.
#![tactic(auto)]

mod counts;
mod sound;

ghost use Rattle.std.specs.Prelude.{◌≡◌, length};
ghost use Rattle.receiver.specs.State.{fresh_receiver};
ghost use Rattle.receiver.specs.Take.{receive, cargo_after};

use header::Header;
use joining::{Cargo, Channel};
pub use sound::is_sound;
use verdict::{Answer, Settings};

#[derive(Clone, Copy, Debug, PartialEq, Eq)]
pub struct Receiver {
    pub settings: Settings,
    pub channels: [Channel; 32],
    pub underway: Option<Cargo>,
}

// The receiver after a transfer, and the answer.
#[derive(Clone, Copy, Debug, PartialEq, Eq)]
pub struct Received {
    pub receiver: Receiver,
    pub answer: Answer,
}

impl Receiver {
    pub const HEADER: usize = Header::SIZE;

    pub const MIN_LIMIT: usize = 5;

    pub const MAX_CHANNELS: usize = 32;

    pub const MAX_LIMIT: usize = 32766;

    // The fresh receiver. Settings out of range are kept, and each call answers 23.
    pub fn fresh(settings: Settings) -> Receiver
        ensures { result ≡ fresh_receiver settings }
    {
        Receiver {
            settings,
            channels: [Channel::fresh(); 32],
            underway: None,
        }
    }

    // Takes one transfer. The lent buffer holds the cargo under way.
    pub fn take(self, transfer: &[u8], cargo: &mut [u8]) -> Received
        ensures value { result ≡ receive self transfer.now (length cargo.old) }
        ensures cargo_after { cargo.new ≡ cargo_after self transfer.now cargo.old }
    {
        let at = step::channel_of(transfer) % 32;
        let sound = sound::is_sound(self.settings, self.underway);
        match step::step_in(
            sound,
            self.settings,
            self.underway,
            self.channels[at],
            transfer,
            cargo,
        ) {
            Err(answer) => Received {
                receiver: self,
                answer,
            },
            Ok(went) => {
                let mut receiver = Receiver {
                    underway: went.underway,
                    ..self
                };
                receiver.channels[at] = went.channel;
                Received {
                    receiver,
                    answer: went.answer,
                }
            }
        }
    }
}
