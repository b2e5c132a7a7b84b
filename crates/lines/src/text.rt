// A line as text. Each field goes behind the bytes before `at`, with the byte that ends it: where the next one goes.
ghost use Rattle.std.specs.Prelude.{◌≡◌, [], ◌∷◌, ◌++◌, ◌+◌, ◌<◌, ◌≤◌, length, take};
ghost use Rattle.lines.specs.Decimal.{decimal};
ghost use Rattle.lines.specs.Line as says;

use fields::{Event, Fields};
use listener::News;

pub(crate) const TAB: u8 = b'\t';

pub(crate) const LINE_FEED: u8 = b'\n';

// Kept: tried: Display and write! over ArrayString<128>: std does not promise when write! fails, and line's clauses do.
#[tactic(auto, using(crate::proofs::Texts::put_behind))]
pub(crate) fn put(text: &[u8], end: u8, line: &mut [u8], at: usize) -> usize
    requires { at + length text.now < length line.old }
    ensures value { result ≡ at + (length text.now + 1) }
    ensures line_after { take result line.new ≡ take at line.old ++ (text.now ++ end ∷ []) }
{
    let next = at + text.len();
    line[at..next].copy_from_slice(text);
    line[next] = end;
    next + 1
}

#[tactic(auto, using(crate::proofs::Numbers::decimal_is))]
pub(crate) fn put_number(n: u64, end: u8, line: &mut [u8; 128], at: usize) -> usize
    requires { at + 21 ≤ 128 }
    ensures value { result ≡ at + (length (decimal n) + 1) }
    ensures line_after { take result line.new ≡ take at line.old ++ (decimal n ++ end ∷ []) }
{
    let mut digits = [0u8; 20];
    let k = io::decimal(n, &mut digits);
    put(&digits[..k], end, line, at)
}

// A number, or `-` for none.
pub(crate) fn put_or_dash(number: Option<u64>, end: u8, line: &mut [u8; 128], at: usize) -> usize
    requires { at + 21 ≤ 128 }
    ensures value { result ≡ at + (length (says.or_dash number) + 1) }
    ensures line_after { take result line.new ≡ take at line.old ++ (says.or_dash number ++ end ∷ []) }
{
    match number {
        Some(number) => put_number(number, end, line, at),
        None => put(b"-", end, line, at),
    }
}

fn name_of(event: Event) -> &'static [u8]
    ensures { result.now ≡ says.name_of event }
{
    match event {
        Event::Cargo => b"cargo",
        Event::Part => b"part",
        Event::Null => b"null",
        Event::Query => b"query",
        Event::Notice => b"notice",
        Event::Refused => b"refused",
    }
}

fn channel_number(channel: Option<usize>) -> Option<u64>
    ensures { result ≡ channel }
{
    channel.map(|channel| channel as u64)
}

#[tactic(auto, using(crate::proofs::Numbers::decimal_short, crate::proofs::Texts::dash_short, crate::proofs::Texts::name_short))]
pub(crate) fn put_fields(f: Fields, line: &mut [u8; 128]) -> usize
    ensures value { result ≡ length (says.text_of f) }
    ensures line_after { take result line.new ≡ says.text_of f }
{
    let at = put(name_of(f.event), TAB, line, 0);
    let at = put_or_dash(channel_number(f.channel), TAB, line, at);
    let at = put_number(f.bytes as u64, TAB, line, at);
    let at = put_number(f.number as u64, TAB, line, at);
    let at = put_number(f.gap as u64, TAB, line, at);
    put_number(f.dropped as u64, LINE_FEED, line, at)
}

// The line of a piece of news, from the front: how many bytes it has.
pub(crate) fn spell(news: News, line: &mut [u8; 128]) -> usize
    ensures value { result ≡ length (says.line_of news) }
    ensures line_after { take result line.new ≡ says.line_of news }
{
    match news {
        News::Nothing => 0,
        News::Transfer {
            channel,
            held,
            answer,
        } => put_fields(fields::of_transfer(channel, held, answer), line),
        News::Query => put_fields(fields::plain(Event::Query, 0, 0), line),
        News::Notice { room } => put_fields(fields::plain(Event::Notice, room as usize, 0), line),
        News::Refused(refusal) => {
            put_fields(fields::plain(Event::Refused, 0, refusal.number()), line)
        }
    }
}
