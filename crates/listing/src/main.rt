// Lists the messages of a UART stream: standard input to standard output.
#![tactic(auto)]

use console::Streams;
use listener::News;
use session::Teller;

// A line for each message; nothing is kept from one to the next.
#[derive(Drop)]
struct Listing;

impl Teller for Listing {
    const LONGEST: usize = lines::LONGEST;

    const TRANSFERS_ALONE: bool = false;

    const UNREAD: &'static [u8] = b"listing: standard input cannot be read\n";

    const UNWRITTEN: &'static [u8] = b"listing: standard output cannot be written\n";

    const NO_FLAG: &'static [u8] =
        b"listing: no flag 7E came: hex text, or a line at another speed?\n";

    #[tactic(auto, using(lines::proofs::Room::had_room))]
    fn heading(&self, out: &mut [u8]) -> usize {
        lines::heading(out).unwrap_or(0)
    }

    #[tactic(auto, using(lines::proofs::Room::had_room))]
    fn tell(&mut self, news: News, _cargo: &[u8], out: &mut [u8]) -> usize {
        lines::line(news, out).unwrap_or(0)
    }
}

fn main(rt: HostRuntime) {
    let streams = Streams::of(rt);
    if console::is_given(&rt, 1) {
        console::say(streams, b"listing: use it as listing < STREAM\n");
        return;
    }
    session::run(streams, Listing);
}
