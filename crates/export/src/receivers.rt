// A receiver lent as a row of 140 numbers.
ghost use Rattle.std.specs.Prelude.{◌≡◌, ◌++◌, ◌<◌, ◌≤◌, length, drop};
ghost use Rattle.receiver.specs.State.{with_channel};
ghost use Rattle.export.specs.Receivers as rows;

use crate::{numbers, places};
use joining::{Cargo, Channel};
use receiver::Receiver;
use refusals::Refusal;
use step::Taken;
use verdict::{Answer, Kind, Settings};

pub(crate) const ROW: usize = 140;

// Channel i of a row, read and written.
pub(crate) fn channel_in(row: &[usize], i: usize) -> Channel
    requires { (i < 32) × (128 ≤ length row.now) }
    ensures { result ≡ rows.channel_in row.now i }
{
    numbers::channel_from(row[i], row[32 + i], row[64 + i], row[96 + i])
}

fn put_channel(channel: Channel, row: &mut [usize], i: usize)
    requires { (i < 32) × (128 ≤ length row.old) }
    ensures { row.new ≡ rows.channel_put row.old i channel }
{
    let [expected, heard, missing, repeats] = numbers::channel_numbers(channel);
    row[i] = expected;
    row[32 + i] = heard;
    row[64 + i] = missing;
    row[96 + i] = repeats;
}

#[tactic(auto, unfolding(crate::specs::Receivers::channels_in))]
fn load_channels(row: &[usize]) -> [Channel; 32]
    requires { 128 ≤ length row.now }
    ensures { result ≡ rows.channels_in row.now 32 }
{
    let mut channels = [Channel::fresh(); 32];
    // Kept: tried `std::array::from_fn`: the proof did not close.
    for i in 0..32 {
        channels[i] = channel_in(row, i);
    }
    channels
}

fn store_channels(channels: [Channel; 32], row: &mut [usize])
    requires { 128 ≤ length row.old }
    ensures { row.new ≡ rows.channels_numbers channels ++ drop 128 row.old }
{
    for (i, channel) in channels.iter().enumerate() {
        put_channel(*channel, row, i);
    }
}

// Loads and stores every channel, in place: each number becomes the one that its field has.
fn settle(row: &mut [usize])
    requires { 128 ≤ length row.old }
    ensures { row.new ≡ rows.channels_numbers (rows.channels_in row.old 32) ++ drop 128 row.old }
{
    for i in 0..32 {
        put_channel(channel_in(row, i), row, i);
    }
}

pub(crate) fn settings_in(row: &[usize]) -> Settings
    requires { 134 ≤ length row.now }
    ensures { result ≡ (rows.receiver_of row.now).settings }
{
    Settings {
        limit: row[128],
        count: row[129],
    }
}

pub(crate) fn underway_in(row: &[usize]) -> Option<Cargo>
    requires { 134 ≤ length row.now }
    ensures { result ≡ (rows.receiver_of row.now).underway }
{
    numbers::underway_of(row[130], row[131], row[132], row[133])
}

fn load_receiver(row: &[usize]) -> Receiver
    requires { 134 ≤ length row.now }
    ensures { result ≡ rows.receiver_of row.now }
{
    Receiver {
        settings: settings_in(row),
        channels: load_channels(row),
        underway: underway_in(row),
    }
}

pub(crate) fn store_receiver(r: Receiver, row: &mut [usize])
    requires { 134 ≤ length row.old }
    ensures { row.new ≡ rows.receiver_numbers r ++ drop 134 row.old }
{
    store_channels(r.channels, row);
    places::store(&numbers::limits(r.settings, r.underway), row, 128);
}

// Stores what a transfer on channel i left of the receiver that the row holds, and what was told.
pub(crate) fn store_after(
    i: usize,
    channel: Channel,
    underway: Option<Cargo>,
    told: [usize; 6],
    row: &mut [usize],
)
    requires { (i < 32) × (140 ≤ length row.old) }
    ensures { row.new ≡ rows.receiver_numbers (with_channel (rows.receiver_of row.old) i channel underway) ++ told ++ drop 140 row.old }
{
    let settings = settings_in(row);
    let numbers = numbers::limits(settings, underway);
    settle(row);
    put_channel(channel, row, i);
    places::store(&numbers, row, 128);
    places::store(&told, row, 134);
}

// What an answer tells; a cargo's channel and length are 0 where none was delivered.
pub fn answer_numbers(a: Answer) -> [usize; 6]
    ensures { result ≡ rows.answer_numbers a }
{
    let (kind, channel, length) = match a.kind {
        Kind::Delivered { channel, length } => (0, channel, length),
        Kind::Part => (1, 0, 0),
        Kind::Null => (2, 0, 0),
        Kind::Refused => (3, 0, 0),
    };
    let number = usize::from(a.number);
    let gap = usize::from(a.gap);
    [
        kind,
        number,
        gap,
        numbers::flag_number(a.dropped),
        channel,
        length,
    ]
}

// Takes one transfer. The lent cargo buffer holds the cargo under way.
#[unsafe(no_mangle)]
#[tactic(auto, unfolding(crate::specs::Receivers::take_number, crate::specs::Receivers::row_taken, crate::specs::Receivers::cargo_taken))]
pub extern "C" fn boherlin_take(row: &mut [usize], transfer: &[u8], cargo: &mut [u8]) -> u8
    ensures value { result ≡ rows.take_number row.old transfer.now (length cargo.old) }
    ensures row_after { row.new ≡ rows.row_taken row.old transfer.now (length cargo.old) }
    ensures cargo_after { cargo.new ≡ rows.cargo_taken row.old transfer.now cargo.old }
{
    if row.len() != ROW {
        return Refusal::Unsound.number();
    }
    let settings = settings_in(row);
    let before = underway_in(row);
    let sound = receiver::is_sound(settings, before);
    let i = step::channel_of(transfer) % 32;
    let kept = channel_in(row, i);
    let step = step::step_in(sound, settings, before, kept, transfer, cargo);
    let Taken {
        channel,
        underway,
        answer,
    } = step::taken_by(kept, before, step);
    store_after(i, channel, underway, answer_numbers(answer), row);
    answer.number
}

// Copies every channel's missing count, then every channel's repeats: 23, 28 or 0.
#[unsafe(no_mangle)]
#[tactic(auto, unfolding(crate::specs::Receivers::counts_number, crate::specs::Receivers::counts_copied))]
pub extern "C" fn boherlin_copy_counts(row: &[usize], counts: &mut [u32]) -> u8
    ensures value { result ≡ rows.counts_number row.now (length counts.old) }
    ensures counts_after { counts.new ≡ rows.counts_copied row.now counts.old }
{
    if row.len() != ROW {
        return Refusal::Unsound.number();
    }
    refusals::number_in(&load_receiver(row).copy_counts(counts))
}

// Sets both counts to zero for all channels: 23 or 0.
// Kept: of one shape with boherlin_abandon, since C calls both by name, with rows of two kinds.
#[unsafe(no_mangle)]
#[tactic(auto, unfolding(crate::specs::Receivers::clear_number, crate::specs::Receivers::row_cleared))]
pub extern "C" fn boherlin_clear_counts(row: &mut [usize]) -> u8
    ensures value { result ≡ rows.clear_number row.old }
    ensures row_after { row.new ≡ rows.row_cleared row.old }
{
    if row.len() != ROW {
        return Refusal::Unsound.number();
    }
    let before = load_receiver(row);
    let cleared = before.clear_counts();
    store_receiver(cleared.unwrap_or(before), row);
    refusals::number_in(&cleared)
}
