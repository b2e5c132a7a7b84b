// What was told, counted in a lent tally of numbers.
ghost use Rattle.std.specs.Prelude.{◌≡◌, ◌<◌, ◌≤◌, length};
ghost use Rattle.whole.specs.Tallies as counts;

use listener::News;
use reader::Event;
use verdict::{Answer, Kind};

// How many places a tally has.
// Kept: no plainer as `&mut [usize; 9]`: read_whole and listen_whole count over all of a lent tally, longer ones too.
pub(crate) const TALLY: usize = 9;

// The last place counts bytes.
const BYTES: usize = 8;

// Kept: C interface: boherlin_tally_messages and boherlin_tally_stream fix the places in answer, news and event_place.
fn answer_place(answer: Answer) -> usize
    ensures value { result ≡ counts.kind_place answer.kind }
    ensures upper_bound { result < 8 }
{
    match answer.kind {
        Kind::Delivered { .. } => 1,
        Kind::Part => 2,
        Kind::Null => 3,
        Kind::Refused => 4,
    }
}

fn cargo_bytes(answer: Answer) -> usize
    ensures { result ≡ counts.cargo_bytes answer.kind }
{
    match answer.kind {
        Kind::Delivered { length, .. } => length,
        _ => 0,
    }
}

fn news_place(news: News) -> usize
    ensures value { result ≡ counts.news_place news }
    ensures upper_bound { result < 8 }
{
    match news {
        News::Nothing => 0,
        News::Transfer { answer, .. } => answer_place(answer),
        News::Query => 5,
        News::Notice { .. } => 6,
        News::Refused(_) => 7,
    }
}

fn news_bytes(news: News) -> usize
    ensures { result ≡ counts.news_bytes news }
{
    match news {
        News::Transfer { answer, .. } => cargo_bytes(answer),
        _ => 0,
    }
}

fn event_place(event: Event) -> usize
    ensures value { result ≡ counts.event_place event }
    ensures upper_bound { result < 8 }
{
    match event {
        Event::Nothing => 0,
        Event::Message { .. } => 1,
        Event::Query => 5,
        Event::Notice { .. } => 6,
        Event::Refused(_) => 7,
    }
}

fn payload_bytes(event: Event) -> usize
    ensures { result ≡ counts.payload_bytes event }
{
    match event {
        Event::Message { length } => length,
        _ => 0,
    }
}

fn count(tally: &mut [usize], place: usize, bytes: usize)
    requires { (place < 8) × (9 ≤ length tally.old) }
    ensures { tally.new ≡ counts.counted tally.old place bytes }
{
    tally[place] = tally[place].wrapping_add(1);
    tally[BYTES] = tally[BYTES].wrapping_add(bytes);
}

pub(crate) fn count_news(news: News, tally: &mut [usize])
    requires { 9 ≤ length tally.old }
    ensures { tally.new ≡ counts.news_counted tally.old news }
{
    count(tally, news_place(news), news_bytes(news));
}

pub(crate) fn count_event(event: Event, tally: &mut [usize])
    requires { 9 ≤ length tally.old }
    ensures { tally.new ≡ counts.event_counted tally.old event }
{
    count(tally, event_place(event), payload_bytes(event));
}
