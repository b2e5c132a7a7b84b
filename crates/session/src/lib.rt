// The run of a program over a UART stream: standard input is heard above a fresh receiver, each piece of news is told,
// and what is told goes to standard output.
#![tactic(auto)]

ghost use Rattle.std.specs.Prelude.{◌≤◌, length};

use console::Streams;
use listener::{Listener, News};
use reader::{Phase, Reader};
use receiver::Receiver;
use verdict::Settings;

// How many bytes are read or written at once, at most.
const CHUNK: usize = 65536;

// A message has an ID too.
const MESSAGE: usize = 1 + Receiver::MAX_LIMIT;

const CARGO: usize = Receiver::MAX_LIMIT - Receiver::HEADER;

// What a program makes of a stream.
pub trait Teller {
    // No line has more bytes.
    const LONGEST: usize;

    // Whether it is told of transfers alone: other news is passed over, and no room is made for it.
    const TRANSFERS_ALONE: bool;

    // Said where standard input cannot be read.
    const UNREAD: &'static [u8];

    // Said where standard output cannot be written.
    const UNWRITTEN: &'static [u8];

    // Said at the end, where bytes came and never a flag.
    const NO_FLAG: &'static [u8];

    // Writes the heading to the front of `out`: how many bytes it has.
    fn heading(&self, out: &mut [u8]) -> usize
        ensures { result ≤ length out.old };

    // Hears a piece of news, with the cargo buffer after it, and writes its line to the front of `out`: how many bytes it
    // has.
    fn tell(&mut self, news: News, cargo: &[u8], out: &mut [u8]) -> usize
        ensures { result ≤ length out.old };
}

// The program and its listener after some input, how much of the output is gathered, and whether a byte came.
#[derive(Drop)]
struct Session<T> {
    streams: Streams,
    teller: T,
    listener: Listener,
    used: usize,
    came: bool,
}

impl<T: Teller> Session<T> {
    // Tells a piece of news behind the bytes gathered. Where the line may have no room, those are written first: none
    // where they cannot be.
    fn gather(&mut self, news: News, cargo: &[u8], out: &mut [u8]) -> Option<()>
        requires { self.old.used ≤ length out.old }
        ensures { self.new.used ≤ length out.old }
    {
        if T::TRANSFERS_ALONE && !matches!(news, News::Transfer { .. }) {
            return Some(());
        }
        let used = console::make_room(self.streams, T::LONGEST, out, self.used, T::UNWRITTEN)?;
        self.used = used + self.teller.tell(news, cargo, &mut out[used..]);
        Some(())
    }

    // Tells the messages that close in this input.
    // Kept: four lent buffers and what of `out` is used, no plainer: each call would split borrows of one struct.
    #[tactic(auto, using(parts::proofs::Listens::channel_below, reader::proofs::Onward::onward))]
    fn hear(
        &mut self,
        input: &[u8],
        message: &mut [u8],
        cargo: &mut [u8],
        out: &mut [u8],
    ) -> Option<()>
        requires { self.old.used ≤ length out.old }
        ensures { self.new.used ≤ length out.old }
    {
        self.came = true;
        let receiver = self.listener.receiver;
        let mut reader = self.listener.reader;
        let settings = receiver.settings;
        let mut channels = receiver.channels;
        let mut underway = receiver.underway;
        let sound = receiver::is_sound(settings, underway);
        let mut told = Some(());
        let mut at = 0;
        // Kept: a message takes as many bytes as it has.
        while at < input.len() && told.is_some() {
            let ran = reader.read(input, at, message);
            reader = ran.reader;
            at = ran.next;
            let i = parts::channel_in(ran.event, message);
            let channel = channels[i];
            let handed = parts::hand_in(
                sound, settings, underway, channel, ran.event, message, cargo,
            );
            channels[i] = handed.channel;
            underway = handed.underway;
            told = self.gather(handed.news, cargo, out);
        }
        self.listener.reader = reader;
        self.listener.receiver.channels = channels;
        self.listener.receiver.underway = underway;
        told
    }

    // Writes what is gathered, reads once, and tells what came: none at the end, and where a stream fails.
    fn turn(
        &mut self,
        input: &mut [u8],
        message: &mut [u8],
        cargo: &mut [u8],
        out: &mut [u8],
    ) -> Option<()>
        requires { self.old.used ≤ length out.old }
        ensures { self.new.used ≤ length out.old }
    {
        console::flush(self.streams, out, self.used, T::UNWRITTEN)?;
        self.used = 0;
        let n = console::read(self.streams, input, T::UNREAD);
        if n == 0 {
            return None;
        }
        self.hear(&input[..n], message, cargo, out)
    }

    // At the end: says it where bytes came and never a flag. A reader that had one is never outside again.
    fn finish(&self) {
        if self.came && matches!(self.listener.reader.phase, Phase::Outside) {
            console::say(self.streams, T::NO_FLAG);
        }
    }
}

// Runs a program to the end of its input.
pub fn run<T: Teller + Drop>(streams: Streams, teller: T) {
    let mut input = [0u8; CHUNK];
    let mut message = [0u8; MESSAGE];
    let mut cargo = [0u8; CARGO];
    let mut out = [0u8; CHUNK];
    let settings = Settings {
        limit: Receiver::MAX_LIMIT,
        count: Receiver::MAX_CHANNELS,
    };
    let mut session = Session {
        streams,
        used: teller.heading(&mut out),
        teller,
        listener: Listener {
            reader: Reader::outside(),
            receiver: Receiver::fresh(settings),
        },
        came: false,
    };
    // A proved loop has to end, and nothing says that the input does: no run uses up these turns.
    for _ in 0..u64::MAX {
        if session
            .turn(&mut input, &mut message, &mut cargo, &mut out)
            .is_none()
        {
            break;
        }
    }
    session.finish();
}
