// One channel of a receiver.
ghost use Rattle.std.specs.Prelude.{◌≡◌};
ghost use Rattle.joining.specs.Channel as says;

use header::Counter;

// The number expected, whether the channel was heard, and its counts.
#[derive(Clone, Copy, Debug, PartialEq, Eq)]
pub struct Channel {
    pub counter: Counter,
    pub heard: bool,
    pub missing: u32,
    pub repeats: u32,
}

impl Channel {
    pub fn fresh() -> Channel
        ensures { result ≡ says.fresh_channel }
    {
        Channel {
            counter: Counter::fresh(),
            heard: false,
            missing: 0,
            repeats: 0,
        }
    }

    // Whether the number is the last one heard, which is 255 ahead of the one expected.
    #[tactic(auto, unfolding(crate::specs::Channel::is_repeat))]
    pub fn is_repeat(self, gap: u8) -> bool
        ensures { result ≡ says.is_repeat self gap }
    {
        self.heard && gap == 255
    }

    // A repeat is counted, and nothing else.
    pub fn repeated(self) -> Channel
        ensures { result ≡ says.repeated self }
    {
        Channel {
            repeats: self.repeats.wrapping_add(1),
            ..self
        }
    }

    // A new transfer: the gap is missing, and the number after its own is expected.
    pub fn heard_of(self, number: u8, gap: u8) -> Channel
        ensures { result ≡ says.heard_of self number gap }
    {
        Channel {
            counter: Counter { next: number }.step(),
            heard: true,
            missing: self.missing.wrapping_add(u32::from(gap)),
            ..self
        }
    }
}
