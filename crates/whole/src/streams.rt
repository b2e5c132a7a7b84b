// A whole input in one call, from a fresh start, and all that it told counted in a lent tally.
ghost use Rattle.std.specs.Prelude.{◌≡◌, ◌≤◌, length};
ghost use Rattle.whole.specs.Streams as streams;

use crate::tallies;
use crate::tallies::TALLY;
use joining::{Cargo, Channel};
use reader::Reader;
use refusals::Refusal;
use verdict::Settings;

// The reader alone: messages in, payloads out.
fn read_all(input: &[u8], message: &mut [u8], tally: &mut [usize])
    requires { 9 ≤ length tally.old }
    ensures message_after { message.new ≡ (streams.read_whole input.now message.old tally.old).message }
    ensures tally_after { tally.new ≡ (streams.read_whole input.now message.old tally.old).tally }
{
    let mut reader = Reader::outside();
    let mut at = 0;
    // Kept: each turn goes on by as many bytes as were read.
    while at < input.len() {
        let ran = reader.read(input, at, message);
        tallies::count_event(ran.event, tally);
        reader = ran.reader;
        at = ran.next;
    }
}

// The reader above a receiver, whose parts are locals here: messages in, cargoes out.
fn listen_all(
    settings: Settings,
    input: &[u8],
    message: &mut [u8],
    cargo: &mut [u8],
    tally: &mut [usize],
)
    requires { 9 ≤ length tally.old }
    ensures message_after { message.new ≡ (streams.listen_whole settings input.now message.old cargo.old tally.old).message }
    ensures cargo_after { cargo.new ≡ (streams.listen_whole settings input.now message.old cargo.old tally.old).cargo }
    ensures tally_after { tally.new ≡ (streams.listen_whole settings input.now message.old cargo.old tally.old).tally }
{
    let mut reader = Reader::outside();
    let mut channels = [Channel::fresh(); 32];
    let mut underway: Option<Cargo> = None;
    let sound = receiver::is_sound(settings, underway);
    let mut at = 0;
    // Kept: each turn goes on by as many bytes as were read.
    while at < input.len() {
        let ran = reader.read(input, at, message);
        let i = parts::channel_in(ran.event, message);
        let handed = parts::hand_in(
            sound,
            settings,
            underway,
            channels[i],
            ran.event,
            message,
            cargo,
        );
        channels[i] = handed.channel;
        underway = handed.underway;
        tallies::count_news(handed.news, tally);
        reader = ran.reader;
        at = ran.next;
    }
}

// Reads the messages of a whole input: 0, or 28 where the tally has fewer than nine places. The lent buffer holds the
// message under way.
#[tactic(auto, using(laws::proofs::Tests::tests), unfolding(crate::specs::Streams::tally_number, crate::specs::Streams::message_read, crate::specs::Streams::tally_read))]
#[unsafe(no_mangle)]
pub extern "C" fn boherlin_tally_messages(
    input: &[u8],
    message: &mut [u8],
    tally: &mut [usize],
) -> u8
    ensures value { result ≡ streams.tally_number (length tally.old) }
    ensures message_after { message.new ≡ streams.message_read input.now message.old tally.old }
    ensures tally_after { tally.new ≡ streams.tally_read input.now message.old tally.old }
{
    if tally.len() < TALLY {
        return Refusal::ShortOutput.number();
    }
    read_all(input, message, tally);
    0
}

// Takes a whole input above a fresh receiver with these settings: 0, or 28 as above. The lent buffers hold the message
// and the cargo under way.
#[tactic(auto, using(laws::proofs::Tests::tests), unfolding(crate::specs::Streams::tally_number, crate::specs::Streams::message_heard, crate::specs::Streams::cargo_heard, crate::specs::Streams::tally_heard))]
#[unsafe(no_mangle)]
pub extern "C" fn boherlin_tally_stream(
    limit: usize,
    count: usize,
    input: &[u8],
    message: &mut [u8],
    cargo: &mut [u8],
    tally: &mut [usize],
) -> u8
    ensures value { result ≡ streams.tally_number (length tally.old) }
    ensures message_after { message.new ≡ streams.message_heard limit count input.now message.old cargo.old tally.old }
    ensures cargo_after { cargo.new ≡ streams.cargo_heard limit count input.now message.old cargo.old tally.old }
    ensures tally_after { tally.new ≡ streams.tally_heard limit count input.now message.old cargo.old tally.old }
{
    if tally.len() < TALLY {
        return Refusal::ShortOutput.number();
    }
    listen_all(Settings { limit, count }, input, message, cargo, tally);
    0
}
