// A field of a state as a number, and a number as that field.
ghost use Rattle.std.specs.Prelude.{◌≡◌, ◌∷◌};
ghost use Rattle.export.specs.Fields as fields;

use header::Counter;
use joining::{Cargo, Channel};
use verdict::Settings;

// Kept: functions and no From, since one type of number stands for fields of many meanings.
pub(crate) fn counter_of(x: usize) -> Counter
    ensures { result ≡ fields.counter_of x }
{
    Counter {
        next: (x % 256) as u8,
    }
}

pub fn flag_of(x: usize) -> bool
    ensures { result ≡ fields.flag_of x }
{
    x != 0
}

pub fn count_of(x: usize) -> u32
    ensures { result ≡ fields.count_of x }
{
    (x % 4294967296) as u32
}

pub fn channel_from(expected: usize, heard: usize, missing: usize, repeats: usize) -> Channel
    ensures { result ≡ fields.channel_from expected heard missing repeats }
{
    Channel {
        counter: counter_of(expected),
        heard: flag_of(heard),
        missing: count_of(missing),
        repeats: count_of(repeats),
    }
}

#[tactic(auto, using(laws::proofs::Tests::tests), unfolding(crate::specs::Fields::underway_of))]
pub fn underway_of(flag: usize, channel: usize, total: usize, held: usize) -> Option<Cargo>
    ensures { result ≡ fields.underway_of flag channel total held }
{
    if flag == 0 {
        return None;
    }
    Some(Cargo {
        channel,
        total,
        held,
    })
}

pub(crate) fn counter_number(c: Counter) -> usize
    ensures { result ≡ fields.counter_number c }
{
    c.next as usize
}

pub fn flag_number(flag: bool) -> usize
    ensures { result ≡ fields.flag_number flag }
{
    flag as usize
}

pub fn count_number(count: u32) -> usize
    ensures { result ≡ fields.count_number count }
{
    count as usize
}

pub fn channel_numbers(channel: Channel) -> [usize; 4]
    ensures { result ≡ fields.channel_numbers channel }
{
    [
        counter_number(channel.counter),
        flag_number(channel.heard),
        count_number(channel.missing),
        count_number(channel.repeats),
    ]
}

pub fn underway_numbers(underway: Option<Cargo>) -> [usize; 4]
    ensures { result ≡ fields.underway_numbers underway }
{
    match underway {
        None => [0; 4],
        Some(cargo) => [1, cargo.channel, cargo.total, cargo.held],
    }
}

// The limits and the cargo under way.
pub(crate) fn limits(settings: Settings, underway: Option<Cargo>) -> [usize; 6]
    ensures { result ≡ settings.limit ∷ settings.count ∷ fields.underway_numbers underway }
{
    let [flag, channel, total, held] = underway_numbers(underway);
    [settings.limit, settings.count, flag, channel, total, held]
}
