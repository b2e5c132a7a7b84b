// One direction's sender: it cuts cargoes into transfers.
#![tactic(auto)]

mod cut;
mod judge;

ghost use Rattle.std.specs.Prelude.{◌≡◌, length};
ghost use Rattle.sender.specs.State.{fresh_sender};
ghost use Rattle.sender.specs.Send as sends;

use header::{Counter, Header};
use joining::Cargo;
use refusals::Refusal;
use verdict::Settings;

// `largest` is the most bytes that a transfer may have. Of the cargo under way, `held` are the bytes sent.
#[derive(Clone, Copy, Debug, PartialEq, Eq)]
pub struct Sender {
    pub settings: Settings,
    pub largest: usize,
    pub counters: [Counter; 32],
    pub underway: Option<Cargo>,
}

// The sender once the next transfer is written, the transfer's header and size, and the place in the cargo of the bytes
// that it carries.
#[derive(Clone, Copy, Debug, PartialEq, Eq)]
pub struct Next {
    pub sender: Sender,
    pub header: Header,
    pub size: usize,
    pub from: usize,
}

// The sender after a call, and how many bytes were written.
#[derive(Clone, Copy, Debug, PartialEq, Eq)]
pub struct Sent {
    pub sender: Sender,
    pub written: usize,
}

impl Sender {
    // The fresh sender. Settings out of range are kept, and each call answers 23.
    pub fn fresh(settings: Settings, largest: usize) -> Sender
        ensures { result ≡ fresh_sender settings largest }
    {
        Sender {
            settings,
            largest,
            counters: [Counter::fresh(); 32],
            underway: None,
        }
    }

    // The next transfer of a cargo of `m` bytes, where the output has `room` bytes: what `send` would write. Inlined: a
    // send for C is a tenth faster so.
    #[inline]
    pub fn next(mut self, channel: usize, m: usize, room: usize) -> Result<Next, Refusal>
        ensures { result ≡ sends.next_of self channel m room }
    {
        self.judge(channel, m, room)?;
        let from = joining::held(self.underway);
        let left = m - from;
        let size = cut::size_of(self.largest, left);
        let header = Header {
            continuation: 0 < from,
            length: left + Header::SIZE,
            channel,
            number: self.counters[channel].next,
        };
        self.counters[channel] = self.counters[channel].step();
        self.underway = cut::underway_at(channel, m, from + (size - Header::SIZE));
        Ok(Next {
            sender: self,
            header,
            size,
            from,
        })
    }

    // Writes the next transfer of the cargo, which is lent whole at each call, to the front of `out`.
    pub fn send(self, channel: usize, cargo: &[u8], out: &mut [u8]) -> Result<Sent, Refusal>
        ensures value { result ≡ sends.sent self channel (length cargo.now) (length out.old) }
        ensures out_after { out.new ≡ sends.out_after self channel cargo.now out.old }
    {
        let next = self.next(channel, cargo.len(), out.len())?;
        cut::write(next.header, cargo, next.from, next.size - Header::SIZE, out);
        Ok(Sent {
            sender: next.sender,
            written: next.size,
        })
    }

    // Gives up the cargo under way and keeps the numbers.
    #[tactic(auto, unfolding(crate::specs::Send::abandoned))]
    pub fn abandon(self) -> Result<Sender, Refusal>
        ensures { result ≡ sends.abandoned self }
    {
        if !self.is_sound() {
            return Err(Refusal::Unsound);
        }
        Ok(Sender {
            underway: None,
            ..self
        })
    }
}
