// The lines of the listing.
ghost use Rattle.std.specs.Prelude.{◌≡◌, length, get_or};
ghost use Rattle.std.specs.Result.{result_unwrap_or};
ghost use Rattle.refusals.specs.Number.{number_in};
ghost use Rattle.lines.specs.Line as says;
ghost use Rattle.export_plain.specs.Answers as means;

use crate::answers;
use fields::{Event, Fields};
use joining::Cargo;
use listener::News;
use refusals::Refusal;
use verdict::{Answer, Kind};

// Writes the heading to the front of `out`: 0 or 28.
#[unsafe(no_mangle)]
pub extern "C" fn boherlin_heading(out: &mut [u8], written: &mut usize) -> u8
    ensures value { result ≡ number_in (says.written says.heading (length out.old)) }
    ensures out_after { out.new ≡ says.output_after says.heading out.old }
    ensures written_after { written.new ≡ result_unwrap_or (says.written says.heading (length out.old)) 0 }
{
    export::lent_back(lines::heading(out), 0, written)
}

// The channel of the payload in a message buffer, behind the ID and two bytes.
fn channel_in(message: &[u8]) -> usize
    ensures { result ≡ get_or message.now 3 0 }
{
    // Kept: no plainer: `step::channel_of` reads place 2 of a transfer, and the clause here names place 3.
    message.get(3).map_or(0, |channel| *channel as usize)
}

// What a line tells of an answer. A part's line tells the cargo under way.
fn of_answer(answer: Answer, underway: Option<Cargo>, channel: usize) -> Fields
    ensures { result ≡ means.fields_of answer underway channel }
{
    match answer.kind {
        Kind::Part => of_part(answer, underway),
        _ => fields::of_transfer(channel, 0, answer),
    }
}

// A part where no cargo is under way has no channel.
fn of_part(answer: Answer, underway: Option<Cargo>) -> Fields
    ensures { result ≡ means.part_fields answer underway }
{
    match underway {
        None => Fields {
            event: Event::Part,
            channel: None,
            bytes: 0,
            number: answer.number,
            gap: answer.gap,
            dropped: answer.dropped,
        },
        Some(cargo) => fields::of_transfer(cargo.channel, cargo.held, answer),
    }
}

// What a line tells of news that is not nothing. A refusal is told as the receiver's, since 9, 20 and 21 tell a channel.
#[tactic(auto, using(laws::proofs::Tests::tests), unfolding(crate::specs::Answers::fields_in))]
fn fields_in(
    event: usize,
    value: usize,
    answer: Answer,
    underway: Option<Cargo>,
    channel: usize,
) -> Fields
    ensures { result ≡ means.fields_in event value answer underway channel }
{
    match event {
        1 => of_answer(answer, underway, channel),
        2 => fields::plain(Event::Query, 0, 0),
        3 => fields::plain(Event::Notice, value % 65536, 0),
        _ => {
            let refusal = answers::tell(Kind::Refused, answers::byte_of(value), 0, false);
            fields::of_transfer(channel, 0, refusal)
        }
    }
}

#[tactic(auto, unfolding(crate::specs::Answers::line_of))]
fn write_line(
    news: &[usize; 2],
    answer: &[usize; 6],
    underway: &[usize; 4],
    message: &[u8],
    out: &mut [u8],
) -> Result<usize, Refusal>
    ensures value { result ≡ says.written (means.line_of news.now answer.now underway.now message.now) (length out.old) }
    ensures out_after { out.new ≡ says.output_after (means.line_of news.now answer.now underway.now message.now) out.old }
{
    let [event, value] = *news;
    if event == 0 {
        return lines::line(News::Nothing, out);
    }
    let fields = fields_in(
        event,
        value,
        answers::answer_of(answer),
        answers::underway_in(underway),
        channel_in(message),
    );
    lines::fields_line(fields, out)
}

// Writes the line of what a listener told to the front of `out`: 0 or 28. The cargo under way and the message buffer
// are those after it.
#[unsafe(no_mangle)]
pub extern "C" fn boherlin_line(
    news: &[usize; 2],
    answer: &[usize; 6],
    underway: &[usize; 4],
    message: &[u8],
    out: &mut [u8],
    written: &mut usize,
) -> u8
    ensures value { result ≡ number_in (says.written (means.line_of news.now answer.now underway.now message.now) (length out.old)) }
    ensures out_after { out.new ≡ says.output_after (means.line_of news.now answer.now underway.now message.now) out.old }
    ensures written_after { written.new ≡ result_unwrap_or (says.written (means.line_of news.now answer.now underway.now message.now) (length out.old)) 0 }
{
    let line = write_line(news, answer, underway, message, out);
    export::lent_back(line, 0, written)
}
