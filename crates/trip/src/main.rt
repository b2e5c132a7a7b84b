// The trip of a UART stream: standard input to standard output, a line for each cargo that the odometer heard.
#![tactic(auto)]

use console::Streams;
use listener::News;
use odometer::Odometer;
use session::Teller;
use std::env::Env;

// A line for each cargo that the odometer does not pass over.
#[derive(Drop)]
struct Trip {
    odometer: Odometer,
}

impl Teller for Trip {
    const LONGEST: usize = lines::LONGEST;

    const TRANSFERS_ALONE: bool = true;

    const UNREAD: &'static [u8] = b"trip: standard input cannot be read\n";

    const UNWRITTEN: &'static [u8] = b"trip: standard output cannot be written\n";

    const NO_FLAG: &'static [u8] =
        b"trip: no flag 7E came: hex text, or a line at another speed?\n";

    #[tactic(auto, using(lines::proofs::Room::had_room))]
    fn heading(&self, out: &mut [u8]) -> usize {
        lines::trip_heading(out).unwrap_or(0)
    }

    #[tactic(auto, using(lines::proofs::Room::had_room))]
    fn tell(&mut self, news: News, cargo: &[u8], out: &mut [u8]) -> usize {
        let News::Transfer { answer, .. } = news else {
            return 0;
        };
        let heard = self.odometer.hear_answer(answer, cargo);
        self.odometer = heard.odometer;
        lines::trip_line(heard, out).unwrap_or(0)
    }
}

// The argument at a place, the program's own name being at 0. One of more than 32 bytes is bad.
fn number_at(rt: &impl Env, place: usize, least: u32, most: u32) -> Option<u64> {
    let mut text = [0u8; 32];
    let n = rt.arg(place, &mut text).unwrap_or(0);
    arguments::number_in(&text[..n], least, most)
}

fn main(rt: HostRuntime) {
    let streams = Streams::of(rt);
    if !console::is_given(&rt, 2) || console::is_given(&rt, 3) {
        console::say(
            streams,
            b"trip: use it as trip CHANNEL CIRCUMFERENCE < STREAM\n",
        );
        return;
    }
    let Some(channel) = number_at(&rt, 1, 0, 31) else {
        console::say(streams, b"trip: the channel is a number from 0 to 31\n");
        return;
    };
    let Some(circumference) = number_at(&rt, 2, 1, 10000) else {
        console::say(
            streams,
            b"trip: the circumference is a number of millimetres from 1 to 10000\n",
        );
        return;
    };
    let odometer = Odometer::fresh(channel as usize, circumference);
    session::run(streams, Trip { odometer });
}
