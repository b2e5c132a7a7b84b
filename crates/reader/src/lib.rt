// The UART messages, read: a byte at a time here, over a slice in `slices`.
#![tactic(auto)]

mod plain;
mod slices;

ghost use Rattle.std.specs.Prelude.{◌≡◌, ◌≤◌, length};
ghost use Rattle.reader.specs.Reader as reads;
ghost use Rattle.reader.specs.declared.Phase.TheVariants.{Inside};

use refusals::Refusal;
pub use slices::Ran;
use writer::{ESCAPE, FLAG, TURN};

// Before the first flag of a stream; inside a message, which is empty where nothing is held; right after 0x7D; inside
// one of which bytes were dropped.
#[derive(Clone, Copy, Debug, PartialEq, Eq)]
pub enum Phase {
    Outside,
    Inside,
    Escaped,
    Long,
}

// What a byte told. A message with ID 1 has its payload in the lent buffer, behind the ID.
#[derive(Clone, Copy, Debug, PartialEq, Eq)]
pub enum Event {
    Nothing,
    Message { length: usize },
    Query,
    Notice { room: u16 },
    Refused(Refusal),
}

// Of the message under way the lent buffer holds `held` bytes, its ID first.
// Kept: a length beside the buffer, which C lends whole and gets back (boherlin_step).
#[derive(Clone, Copy, Debug, PartialEq, Eq)]
pub struct Reader {
    pub phase: Phase,
    pub held: usize,
}

// The reader after a byte, and what the byte told.
#[derive(Clone, Copy, Debug, PartialEq, Eq)]
pub struct Stepped {
    pub reader: Reader,
    pub event: Event,
}

impl Event {
    // Document 01's number of this event.
    pub fn number(self) -> u8
        ensures { result ≡ reads.number_of self }
    {
        match self {
            Event::Refused(refusal) => refusal.number(),
            _ => 0,
        }
    }
}

// What the bytes between two flags say, an ID and a payload. A notification's room stands low byte first.
#[tactic(auto, using(laws::proofs::Tests::tests), unfolding(crate::specs::Reader::at_flag, crate::specs::Reader::message_of, crate::specs::Reader::control))]
fn message_of(message: &[u8]) -> Event
    ensures { result ≡ reads.at_flag Inside (length message.now) message.now }
{
    match message {
        [] => Event::Nothing,
        [0] => Event::Query,
        [0, low, high] => Event::Notice {
            room: u16::from_le_bytes([*low, *high]),
        },
        [0, ..] => Event::Refused(Refusal::ControlPayload),
        [1, payload @ ..] => Event::Message {
            length: payload.len(),
        },
        _ => Event::Refused(Refusal::UnknownId),
    }
}

impl Reader {
    pub fn outside() -> Reader
        ensures { result ≡ reads.outside }
    {
        Reader {
            phase: Phase::Outside,
            held: 0,
        }
    }

    fn goes_on(self) -> Stepped
        ensures { result ≡ reads.goes_on self.phase self.held }
    {
        Stepped {
            reader: self,
            event: Event::Nothing,
        }
    }

    // What the message says that a flag closes.
    #[tactic(auto, using(laws::proofs::Tests::tests, crate::proofs::Closed::front_alone), unfolding(crate::specs::Reader::at_flag))]
    fn at_flag(self, buf: &[u8]) -> Event
        requires { self.held ≤ length buf.now }
        ensures { result ≡ reads.at_flag self.phase self.held buf.now }
    {
        match self.phase {
            Phase::Outside => Event::Nothing,
            Phase::Long => Event::Refused(Refusal::LongMessage),
            Phase::Escaped => Event::Refused(Refusal::FlagAfterEscape),
            Phase::Inside => message_of(&buf[..self.held]),
        }
    }

    // A decoded byte goes behind those held, where it fits.
    #[tactic(auto, using(laws::proofs::Tests::tests), unfolding(crate::specs::Reader::storing, crate::specs::Reader::stored))]
    fn store(self, b: u8, buf: &mut [u8]) -> Stepped
        ensures value { result ≡ reads.storing self.held (length buf.old) }
        ensures buf_after { buf.new ≡ reads.stored b self.held buf.old }
    {
        if self.held < buf.len() {
            buf[self.held] = b;
            return Reader {
                phase: Phase::Inside,
                held: self.held + 1,
            }
            .goes_on();
        }
        Reader {
            phase: Phase::Long,
            ..self
        }
        .goes_on()
    }

    // A byte that is no flag.
    #[tactic(auto, using(laws::proofs::Tests::tests), unfolding(crate::specs::Reader::at_byte, crate::specs::Reader::buffer_at))]
    fn at_byte(self, b: u8, buf: &mut [u8]) -> Stepped
        ensures value { result ≡ reads.at_byte self.phase self.held b (length buf.old) }
        ensures buf_after { buf.new ≡ reads.buffer_at self.phase self.held b buf.old }
    {
        match self.phase {
            Phase::Outside | Phase::Long => self.goes_on(),
            Phase::Escaped => self.store(b ^ TURN, buf),
            Phase::Inside if b == ESCAPE => Reader {
                phase: Phase::Escaped,
                ..self
            }
            .goes_on(),
            Phase::Inside => self.store(b, buf),
        }
    }

    // Takes one byte. The lent buffer holds the message under way.
    #[tactic(auto, using(laws::proofs::Tests::tests), unfolding(crate::specs::Reader::step_of, crate::specs::Reader::buffer_after))]
    pub fn step(self, b: u8, buf: &mut [u8]) -> Stepped
        ensures value { result ≡ reads.step_of self b buf.old }
        ensures buf_after { buf.new ≡ reads.buffer_after self b buf.old }
    {
        if buf.len() < self.held {
            return Stepped {
                reader: self,
                event: Event::Refused(Refusal::Unsound),
            };
        }
        if b == FLAG {
            return Stepped {
                reader: Reader {
                    phase: Phase::Inside,
                    held: 0,
                },
                event: self.at_flag(buf),
            };
        }
        self.at_byte(b, buf)
    }
}
