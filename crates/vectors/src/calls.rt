// A fresh sender writes a transfer; a message is written; a stream is heard byte by byte above a fresh receiver.
use crate::say;
use listener::{Listener, News};
use reader::Reader;
use receiver::Receiver;
use sender::Sender;
use std::io::Stdout;
use verdict::Settings;

const SETTINGS: Settings = Settings {
    limit: 12,
    count: 32,
};

// The first byte is the largest transfer, the rest a cargo.
pub(crate) fn send(to: Stdout, row: &[u8]) {
    if let [largest, cargo @ ..] = row {
        let mut out = [0xEE; 12];
        let sent = Sender::fresh(SETTINGS, *largest as usize).send(2, cargo, &mut out);
        let written = sent.map(|sent| sent.written);
        say::written(to, &written, &out);
    }
}

pub(crate) fn write(to: Stdout, payload: &[u8]) {
    let mut out = [0xEE; 12];
    let written = writer::write(1, payload, &mut out);
    say::written(to, &written, &out);
}

fn tell(to: Stdout, news: News) {
    match news {
        News::Nothing => {}
        News::Transfer { answer, .. } => say::number(to, b" transfer ", answer.number as usize),
        News::Query => say::text(to, b" query"),
        News::Notice { room } => say::number(to, b" notice ", room as usize),
        News::Refused(refusal) => say::number(to, b" refused ", refusal.number() as usize),
    }
}

pub(crate) fn hear(to: Stdout, stream: &[u8]) {
    let mut listener = Listener {
        reader: Reader::outside(),
        receiver: Receiver::fresh(SETTINGS),
    };
    let mut message = [0; 16];
    let mut cargo = [0xEE; 8];
    say::text(to, b":");
    for b in stream {
        let heard = listener.hear(*b, &mut message, &mut cargo);
        listener = heard.listener;
        tell(to, heard.news);
    }
    say::output(to, &cargo);
}
