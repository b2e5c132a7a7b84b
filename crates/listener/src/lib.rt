// The message reader above a receiver.
#![tactic(auto)]

ghost use Rattle.std.specs.Prelude.{◌≡◌, ℕ, ◌<◌, length};
ghost use Rattle.reader.specs.Reader.{buffer_after};
ghost use Rattle.reader.specs.Run.{read_from};
ghost use Rattle.listener.specs.Listen as listens;

use reader::{Event, Reader, Stepped};
use receiver::{Received, Receiver};
use refusals::Refusal;
use verdict::Answer;

#[derive(Clone, Copy)]
pub struct Listener {
    pub reader: Reader,
    pub receiver: Receiver,
}

// What a byte told, or the receiver of the message that it closed: the transfer's channel, how many bytes of the cargo
// under way are then held, and the answer.
#[derive(Clone, Copy)]
pub enum News {
    Nothing,
    Transfer {
        channel: usize,
        held: usize,
        answer: Answer,
    },
    Query,
    Notice {
        room: u16,
    },
    Refused(Refusal),
}

// The receiver after an event of the reader, and the news.
#[derive(Clone, Copy)]
pub struct Handed {
    pub receiver: Receiver,
    pub news: News,
}

// The listener after a byte, and the news.
#[derive(Clone, Copy)]
pub struct HeardByte {
    pub listener: Listener,
    pub news: News,
}

// The listener after some bytes, the place of the next one, and the news.
#[derive(Clone, Copy)]
pub struct Listened {
    pub listener: Listener,
    pub next: usize,
    pub news: News,
}

impl News {
    // Document 01's number of this news.
    pub fn number(self) -> u8
        ensures { result ≡ listens.news_number self }
    {
        match self {
            News::Transfer { answer, .. } => answer.number,
            News::Refused(refusal) => refusal.number(),
            _ => 0,
        }
    }
}

// Hands the payload of a message to the receiver.
#[tactic(auto, unfolding(crate::specs::Listen::handed, crate::specs::Listen::cargo_handed))]
fn hand(receiver: Receiver, event: Event, message: &[u8], cargo: &mut [u8]) -> Handed
    requires { (n : ℕ) → event ≡ Event.Message n → n < length message.now }
    ensures value { result ≡ listens.handed receiver event message.now (length cargo.old) }
    ensures cargo_after { cargo.new ≡ listens.cargo_handed receiver event message.now cargo.old }
{
    let news = match event {
        Event::Nothing => News::Nothing,
        Event::Message { length } => {
            let transfer = &message[1..1 + length];
            let Received { receiver, answer } = receiver.take(transfer, cargo);
            return Handed {
                receiver,
                news: News::Transfer {
                    channel: step::channel_of(transfer),
                    held: joining::held(receiver.underway),
                    answer,
                },
            };
        }
        Event::Query => News::Query,
        Event::Notice { room } => News::Notice { room },
        Event::Refused(refusal) => News::Refused(refusal),
    };
    Handed { receiver, news }
}

impl Listener {
    // Takes one byte. The lent buffers hold the message and the cargo under way.
    pub fn hear(self, b: u8, message: &mut [u8], cargo: &mut [u8]) -> HeardByte
        ensures value { result ≡ listens.hear self b message.old (length cargo.old) }
        ensures message_after { message.new ≡ buffer_after self.reader b message.old }
        ensures cargo_after { cargo.new ≡ listens.cargo_heard self b message.old cargo.old }
    {
        let Stepped { reader, event } = self.reader.step(b, message);
        let Handed { receiver, news } = hand(self.receiver, event, message, cargo);
        HeardByte {
            listener: Listener { reader, receiver },
            news,
        }
    }

    // Takes bytes from a place on, until a message closes or the input ends.
    pub fn listen(self, input: &[u8], from: usize, message: &mut [u8], cargo: &mut [u8]) -> Listened
        ensures value { result ≡ listens.listen self input.now from message.old (length cargo.old) }
        ensures message_after { message.new ≡ (read_from self.reader input.now from message.old).buffer }
        ensures cargo_after { cargo.new ≡ listens.cargo_listened self input.now from message.old cargo.old }
    {
        let ran = self.reader.read(input, from, message);
        let Handed { receiver, news } = hand(self.receiver, ran.event, message, cargo);
        Listened {
            listener: Listener {
                reader: ran.reader,
                receiver,
            },
            next: ran.next,
            news,
        }
    }
}
