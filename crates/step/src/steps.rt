// What a transfer does, decided over its channel and the cargo under way.
ghost use Rattle.std.specs.Prelude.{◌≡◌, ◌+◌, ◌≤◌, ◌<◌, ◌^◌, length};
ghost use Rattle.joining.specs.Joining.{held_of};
ghost use Rattle.step.specs.Step as steps;

use crate::copies;
use header::Header;
use joining::{Cargo, Channel, Joining};
use refusals::Refusal;
use verdict::{Answer, Kind, Settings};

// What a transfer does that the tests did not stop: its channel and the cargo under way after it, the answer, and where
// to the buffer it carried how many bytes.
#[derive(Clone, Copy, Debug, PartialEq, Eq)]
pub struct Went {
    pub channel: Channel,
    pub underway: Option<Cargo>,
    pub answer: Answer,
    pub at: usize,
    pub carried: usize,
}

// A channel, the cargo under way and the answer after a transfer.
#[derive(Clone, Copy, Debug, PartialEq, Eq)]
pub struct Taken {
    pub channel: Channel,
    pub underway: Option<Cargo>,
    pub answer: Answer,
}

// A new transfer of n bytes, whose bytes were placed.
#[tactic(auto, using(laws::proofs::Tests::tests), unfolding(crate::specs::Step::ended))]
fn after(channel: Channel, h: Header, n: usize, gap: u8, j: Joining, carried: usize) -> Went
    requires { held_of j.cargo + carried < 2 ^ 64 }
    ensures { result ≡ steps.after channel h n gap j carried }
{
    let (underway, kind, number) = match j.cargo {
        None => (None, Kind::Refused, Refusal::NotJoined.number()),
        Some(cargo) if h.length <= n => {
            let kind = Kind::Delivered {
                channel: h.channel,
                length: cargo.total,
            };
            (None, kind, 0)
        }
        Some(cargo) => {
            let cargo = Cargo {
                channel: h.channel,
                held: cargo.held + carried,
                ..cargo
            };
            (Some(cargo), Kind::Part, 0)
        }
    };
    Went {
        channel,
        underway,
        answer: Answer {
            kind,
            number,
            gap,
            dropped: j.dropped,
        },
        at: joining::held(j.cargo),
        carried,
    }
}

// A transfer that passed the tests on its header.
fn go_on(
    underway: Option<Cargo>,
    channel: Channel,
    h: Header,
    transfer: &[u8],
    cargo: &mut [u8],
) -> Went
    requires { (5 ≤ h.length) × (4 ≤ length transfer.now) × (h.length ≤ length cargo.old + 4) }
    ensures value { result ≡ steps.go_on underway channel h (length transfer.now) (length cargo.old) }
    ensures cargo_after { cargo.new ≡ steps.bytes_of (steps.go_on underway channel h (length transfer.now) (length cargo.old)) transfer.now cargo.old }
{
    let gap = header::gap(h.number, channel.counter.next);
    if channel.is_repeat(gap) {
        return Went {
            channel: channel.repeated(),
            underway,
            answer: Answer::from(Refusal::Repeat),
            at: 0,
            carried: 0,
        };
    }
    let n = transfer.len();
    let j = joining::place(underway, h, cargo.len(), gap);
    let carried = joining::carried_of(j.cargo.is_some(), n, h.length);
    let at = joining::held(j.cargo);
    copies::copy(transfer, Header::SIZE, carried, cargo, at);
    after(channel.heard_of(h.number, gap), h, n, gap, j, carried)
}

// All that a transfer does, where `sound` says whether the receiver is sound: an answer alone where the tests stop it.
// Kept: the parts one by one, of which a loop changes two and keeps two: a struct would be built anew at each event.
#[tactic(auto, unfolding(crate::specs::Step::step_of))]
pub fn step_in(
    sound: bool,
    settings: Settings,
    underway: Option<Cargo>,
    channel: Channel,
    transfer: &[u8],
    cargo: &mut [u8],
) -> Result<Went, Answer>
    ensures value { result ≡ steps.step_in sound settings underway channel transfer.now (length cargo.old) }
    ensures cargo_after { cargo.new ≡ steps.bytes_in (steps.step_in sound settings underway channel transfer.now (length cargo.old)) transfer.now cargo.old }
{
    let h = verdict::judge(sound, settings, transfer, cargo.len())?;
    Ok(go_on(underway, channel, h, transfer, cargo))
}

// What a step leaves of a channel and a cargo under way: both, where it was stopped.
pub fn taken_by(channel: Channel, underway: Option<Cargo>, step: Result<Went, Answer>) -> Taken
    ensures { result ≡ steps.taken_by channel underway step }
{
    match step {
        Err(answer) => Taken {
            channel,
            underway,
            answer,
        },
        Ok(went) => Taken {
            channel: went.channel,
            underway: went.underway,
            answer: went.answer,
        },
    }
}

// A transfer's channel.
pub fn channel_of(transfer: &[u8]) -> usize
    ensures { result ≡ steps.channel_of transfer.now }
{
    transfer.get(2).map_or(0, |channel| usize::from(*channel))
}
