// The message reader over a slice: the byte-by-byte run, with plain bytes taken at once.
ghost use Rattle.std.specs.Prelude.{◌≡◌, ◌+◌, ◌≤◌, length};
ghost use Rattle.reader.specs.Run as runs;

use crate::{Event, Phase, Reader, Stepped, plain};
use refusals::Refusal;

// The reader after some bytes, the place of the next one, and what the last one told.
#[derive(Clone, Copy, Debug, PartialEq, Eq)]
pub struct Ran {
    pub reader: Reader,
    pub next: usize,
    pub event: Event,
}

// The reader after plain bytes, and the place of the next one.
#[derive(Clone, Copy)]
struct Skimmed {
    reader: Reader,
    at: usize,
}

fn is_quiet(event: Event) -> bool
    ensures { result ≡ runs.quiet event }
{
    matches!(event, Event::Nothing)
}

// What a reader tells that has no byte left.
#[tactic(auto, using(laws::proofs::Tests::tests), unfolding(crate::specs::Run::at_end))]
fn at_end(r: Reader, buf: &[u8]) -> Event
    ensures { result ≡ runs.at_end r buf.now }
{
    if buf.len() < r.held {
        return Event::Refused(Refusal::Unsound);
    }
    Event::Nothing
}

// Inside a message the plain bytes ahead are taken; reading on from there is reading from here.
#[tactic(auto, using(crate::proofs::Runs::skimmed_by))]
fn skim(r: Reader, input: &[u8], at: usize, buf: &mut [u8]) -> Skimmed
    requires { at ≤ length input.now }
    ensures at_le_at { (at ≤ result.at) × (result.at ≤ length input.now) }
    ensures buf_after { runs.read_from result.reader input.now result.at buf.new ≡ runs.read_from r input.now at buf.old }
{
    if buf.len() < r.held || r.phase != Phase::Inside {
        return Skimmed { reader: r, at };
    }
    let n = plain::take_run(input, at, buf, r.held);
    Skimmed {
        reader: Reader {
            held: r.held + n,
            ..r
        },
        at: at + n,
    }
}

impl Reader {
    // Takes bytes from a place on, until a message closes or the input ends. The lent buffer holds the message under
    // way.
    pub fn read(mut self, input: &[u8], mut from: usize, buf: &mut [u8]) -> Ran
        ensures value { result ≡ (runs.read_from self input.now from buf.old).answer }
        ensures buf_after { buf.new ≡ (runs.read_from self input.now from buf.old).buffer }
    {
        // Kept: each turn goes on by as many bytes as were taken.
        while from < input.len() {
            let Stepped {
                reader: stepped,
                event,
            } = self.step(input[from], buf);
            let next = from + 1;
            if !is_quiet(event) {
                return Ran {
                    reader: stepped,
                    next,
                    event,
                };
            }
            let skimmed = skim(stepped, input, next, buf);
            self = skimmed.reader;
            from = skimmed.at;
        }
        Ran {
            reader: self,
            next: from,
            event: at_end(self, buf),
        }
    }
}
