// What an event of the reader does to a receiver, for loops that hold its parts.
#![tactic(auto)]

ghost use Rattle.std.specs.Prelude.{◌≡◌, length};
ghost use Rattle.parts.specs.Parts as hands;

use joining::{Cargo, Channel};
use listener::News;
use reader::Event;
use step::Taken;
use verdict::Settings;

// The channel and the cargo under way after an event, and the news.
#[derive(Clone, Copy)]
pub struct HandedIn {
    pub channel: Channel,
    pub underway: Option<Cargo>,
    pub news: News,
}

// The payload in a message buffer; none where the buffer is too short for it.
#[tactic(auto, using(laws::proofs::Tests::tests), unfolding(crate::specs::Parts::payload_in))]
fn payload_in(n: usize, message: &[u8]) -> &[u8]
    ensures { result.now ≡ hands.payload_in n message.now }
{
    message
        .get(1..)
        .and_then(|behind| behind.get(..n))
        .unwrap_or(&[])
}

// The place of the channel that an event is for.
#[tactic(auto, unfolding(crate::specs::Parts::channel_in))]
pub fn channel_in(event: Event, message: &[u8]) -> usize
    ensures { result ≡ hands.channel_in event message.now }
{
    if let Event::Message { length } = event {
        return step::channel_of(payload_in(length, message)) % 32;
    }
    0
}

// A transfer handed to the receiver.
fn take_in(
    sound: bool,
    settings: Settings,
    underway: Option<Cargo>,
    channel: Channel,
    transfer: &[u8],
    cargo: &mut [u8],
) -> HandedIn
    ensures value { result ≡ hands.take_in sound settings underway channel transfer.now (length cargo.old) }
    ensures cargo_after { cargo.new ≡ hands.bytes_in sound settings underway channel transfer.now cargo.old }
{
    let step = step::step_in(sound, settings, underway, channel, transfer, cargo);
    let Taken {
        channel,
        underway,
        answer,
    } = step::taken_by(channel, underway, step);
    HandedIn {
        channel,
        underway,
        news: News::Transfer {
            channel: step::channel_of(transfer),
            held: joining::held(underway),
            answer,
        },
    }
}

// Hands an event to the receiver whose settings, cargo under way and channel these are, where `sound` says whether it
// is sound.
// Kept: the parts one by one, since a receiver by value through these calls was tried and is slower.
#[tactic(auto, unfolding(crate::specs::Parts::hand_in, crate::specs::Parts::cargo_in))]
pub fn hand_in(
    sound: bool,
    settings: Settings,
    underway: Option<Cargo>,
    channel: Channel,
    event: Event,
    message: &[u8],
    cargo: &mut [u8],
) -> HandedIn
    ensures value { result ≡ hands.hand_in sound settings underway channel event message.now (length cargo.old) }
    ensures cargo_after { cargo.new ≡ hands.cargo_in sound settings underway channel event message.now cargo.old }
{
    let news = match event {
        Event::Nothing => News::Nothing,
        Event::Message { length } => {
            return take_in(
                sound,
                settings,
                underway,
                channel,
                payload_in(length, message),
                cargo,
            );
        }
        Event::Query => News::Query,
        Event::Notice { room } => News::Notice { room },
        Event::Refused(refusal) => News::Refused(refusal),
    };
    HandedIn {
        channel,
        underway,
        news,
    }
}
