// The tests on a cargo to send: 23, 9, 26, 27, 29, 28.
ghost use Rattle.std.specs.Prelude.{◌≡◌};
ghost use Rattle.sender.specs.State as states;
ghost use Rattle.sender.specs.Send as sends;

use crate::{Sender, cut};
use joining::Cargo;
use receiver::Receiver;
use refusals::Refusal;

// Whether at least one byte of the cargo under way was sent.
#[tactic(auto, unfolding(crate::specs::State::begun))]
fn has_begun(underway: Option<Cargo>) -> bool
    ensures { result ≡ states.begun underway }
{
    underway.is_none_or(|cargo| 1 <= cargo.held)
}

// Whether another channel or length is under way.
#[tactic(auto, using(laws::proofs::Tests::tests), unfolding(crate::specs::Send::differs))]
fn is_other(underway: Option<Cargo>, channel: usize, m: usize) -> bool
    ensures { result ≡ sends.differs underway channel m }
{
    underway.is_some_and(|cargo| cargo.channel != channel || cargo.total != m)
}

impl Sender {
    #[tactic(auto, using(laws::proofs::Tests::tests), unfolding(crate::specs::State::sound))]
    pub(crate) fn is_sound(&self) -> bool
        ensures { result ≡ states.sound_sender self.now }
    {
        receiver::is_sound(self.settings, self.underway)
            && Receiver::MIN_LIMIT <= self.largest
            && self.largest <= self.settings.limit
            && has_begun(self.underway)
    }

    // A cargo of m bytes, and an output of `room` bytes.
    #[tactic(auto, using(laws::proofs::Tests::tests), unfolding(crate::specs::Send::judge))]
    pub(crate) fn judge(&self, channel: usize, m: usize, room: usize) -> Result<(), Refusal>
        ensures { result ≡ sends.judge_send self.now channel m room }
    {
        if !self.is_sound() {
            return Err(Refusal::Unsound);
        }
        if self.settings.count <= channel {
            return Err(Refusal::NoSuchChannel);
        }
        if m == 0 {
            return Err(Refusal::EmptyCargo);
        }
        if self.settings.limit - Receiver::HEADER < m {
            return Err(Refusal::LongCargo);
        }
        if is_other(self.underway, channel, m) {
            return Err(Refusal::OtherUnderWay);
        }
        if room < cut::size_of(self.largest, m - joining::held(self.underway)) {
            return Err(Refusal::ShortOutput);
        }
        Ok(())
    }
}
