// A message reader above a receiver, lent as a row of 145 numbers.
ghost use Rattle.std.specs.Prelude.{◌≡◌, [], ◌∷◌, length};
ghost use Rattle.export.specs.Readers.{phase_number};
ghost use Rattle.export.specs.Listeners as rows;

use crate::{places, readers, receivers};
use listener::News;
use reader::Reader;
use refusals::Refusal;

const ROW: usize = 145;

fn news_answer(news: News) -> [usize; 6]
    ensures { result ≡ rows.news_answer news }
{
    match news {
        News::Transfer { answer, .. } => receivers::answer_numbers(answer),
        _ => [0; 6],
    }
}

// Kept: of one shape with `event_kind`, but another enum's numbers for C (boherlin_listen, boherlin_read).
fn news_kind(news: News) -> usize
    ensures { result ≡ rows.news_kind news }
{
    match news {
        News::Nothing => 0,
        News::Transfer { .. } => 1,
        News::Query => 2,
        News::Notice { .. } => 3,
        News::Refused(_) => 4,
    }
}

fn news_value(news: News) -> usize
    ensures { result ≡ rows.news_value news }
{
    match news {
        News::Notice { room } => room as usize,
        News::Refused(refusal) => refusal.number() as usize,
        _ => 0,
    }
}

fn told_numbers(reader: Reader, news: News, next: usize) -> [usize; 5]
    ensures { result ≡ phase_number reader.phase ∷ reader.held ∷ rows.news_kind news ∷ rows.news_value news ∷ next ∷ [] }
{
    [
        readers::phase_number(reader.phase),
        reader.held,
        news_kind(news),
        news_value(news),
        next,
    ]
}

// Takes bytes from a place on, until a message closes or the input ends. The lent buffers hold the message and the
// cargo under way.
#[unsafe(no_mangle)]
#[tactic(auto, unfolding(crate::specs::Listeners::listen_number, crate::specs::Listeners::row_listened, crate::specs::Listeners::message_listened, crate::specs::Listeners::cargo_held))]
pub extern "C" fn boherlin_listen(
    row: &mut [usize],
    input: &[u8],
    from: usize,
    message: &mut [u8],
    cargo: &mut [u8],
) -> u8
    ensures value { result ≡ rows.listen_number row.old input.now from message.old (length cargo.old) }
    ensures row_after { row.new ≡ rows.row_listened row.old input.now from message.old (length cargo.old) }
    ensures message_after { message.new ≡ rows.message_listened row.old input.now from message.old }
    ensures cargo_after { cargo.new ≡ rows.cargo_held row.old input.now from message.old cargo.old }
{
    if row.len() != ROW {
        return Refusal::Unsound.number();
    }
    let ran = readers::load_reader(&row[140..]).read(input, from, message);
    let settings = receivers::settings_in(row);
    let underway = receivers::underway_in(row);
    let sound = receiver::is_sound(settings, underway);
    let i = parts::channel_in(ran.event, message);
    let channel = receivers::channel_in(row, i);
    let handed = parts::hand_in(
        sound, settings, underway, channel, ran.event, message, cargo,
    );
    let news = handed.news;
    receivers::store_after(i, handed.channel, handed.underway, news_answer(news), row);
    places::store(&told_numbers(ran.reader, news, ran.next), row, 140);
    news.number()
}
