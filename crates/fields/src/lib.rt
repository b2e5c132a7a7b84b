// What a line tells of a piece of news.
#![tactic(auto)]

ghost use Rattle.std.specs.Prelude.{◌≡◌};
ghost use Rattle.fields.specs.Fields as tells;

use verdict::{Answer, Kind};

#[derive(Clone, Copy, Debug, PartialEq, Eq)]
pub enum Event {
    Cargo,
    Part,
    Null,
    Query,
    Notice,
    Refused,
}

// The fields of a line; one without a channel shows `-` there.
#[derive(Clone, Copy, Debug, PartialEq, Eq)]
pub struct Fields {
    pub event: Event,
    pub channel: Option<usize>,
    pub bytes: usize,
    // Kept: a number and no Result, since C may lend any byte (boherlin_line).
    pub number: u8,
    pub gap: u8,
    pub dropped: bool,
}

#[tactic(auto, unfolding(crate::specs::Fields::names_channel))]
fn names_channel(number: u8) -> bool
    ensures { result ≡ tells.names_channel number }
{
    matches!(number, 9 | 20 | 21)
}

#[tactic(auto, unfolding(crate::specs::Fields::refused_channel))]
fn refused_channel(number: u8, channel: usize) -> Option<usize>
    ensures { result ≡ tells.refused_channel number channel }
{
    names_channel(number).then_some(channel)
}

// An event with no channel and no gap.
pub fn plain(event: Event, bytes: usize, number: u8) -> Fields
    ensures { result ≡ tells.plain_fields event bytes number }
{
    Fields {
        event,
        channel: None,
        bytes,
        number,
        gap: 0,
        dropped: false,
    }
}

fn tell(event: Event, channel: Option<usize>, count: usize, answer: Answer) -> Fields
    ensures { result ≡ tells.told event channel count answer }
{
    Fields {
        event,
        channel,
        bytes: count,
        number: answer.number,
        gap: answer.gap,
        dropped: answer.dropped,
    }
}

// The answer to a transfer on a channel, after which so many bytes of the cargo under way are held.
pub fn of_transfer(channel: usize, held: usize, answer: Answer) -> Fields
    ensures { result ≡ tells.fields_of channel held answer }
{
    match answer.kind {
        Kind::Delivered { channel, length } => tell(Event::Cargo, Some(channel), length, answer),
        Kind::Part => tell(Event::Part, Some(channel), held, answer),
        Kind::Null => tell(Event::Null, None, 0, answer),
        Kind::Refused => tell(
            Event::Refused,
            refused_channel(answer.number, channel),
            0,
            answer,
        ),
    }
}
