// Sequence numbers: each channel has its own in each direction.
ghost use Rattle.std.specs.Prelude.{◌≡◌};
ghost use Rattle.header.specs.Sequence.{fresh_counter, stepped, gap_of};

// The number that comes next on a channel.
#[derive(Clone, Copy, Debug, PartialEq, Eq)]
pub struct Counter {
    pub next: u8,
}

impl Counter {
    pub fn fresh() -> Counter
        ensures { result ≡ fresh_counter }
    {
        Counter { next: 0 }
    }

    // One step: 255 is followed by 0.
    pub fn step(self) -> Counter
        ensures { result ≡ stepped self }
    {
        Counter {
            next: self.next.wrapping_add(1),
        }
    }
}

// "The gap is (number received - number expected) modulo 256" (document 01).
pub fn gap(received: u8, expected: u8) -> u8
    ensures { result ≡ gap_of received expected }
{
    received.wrapping_sub(expected)
}
