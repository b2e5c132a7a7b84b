// Permitted sends: the next transfer of a cargo, plain or as a UART message.
ghost use Rattle.std.specs.Prelude.{◌≡◌, length};
ghost use Rattle.permit.specs.Send as sends;

use crate::{Permit, judge};
use header::Header;
use refusals::Refusal;
use sender::Sender;

// The sender and the permit after a write, and how many bytes were written.
#[derive(Clone, Copy, Debug, PartialEq, Eq)]
pub struct Allowed {
    pub sender: Sender,
    pub permit: Option<Permit>,
    pub written: usize,
}

impl Permit {
    // Writes the next transfer of the cargo to the front of `out`, as the sender does: its refusals, then 43, 45, 44.
    pub fn send(
        held: Option<Permit>,
        sender: Sender,
        channel: usize,
        cargo: &[u8],
        clock: u64,
        timeout: u32,
        out: &mut [u8],
    ) -> Result<Allowed, Refusal>
        ensures value { result ≡ sends.answer sends.transfers held sender channel cargo.now (length out.old) clock timeout }
        ensures out_after { out.new ≡ sends.output sends.transfers held sender channel cargo.now out.old clock timeout }
    {
        let header = sender.next(channel, cargo.len(), out.len())?.header;
        judge::ask(held, header.length, clock, timeout)?;
        let sent = sender.send(channel, cargo, out)?;
        Ok(Allowed {
            sender: sent.sender,
            permit: None,
            written: sent.written,
        })
    }

    // Writes the UART message that carries the next transfer to the front of `out`: 28 asks for the message's bytes.
    // Kept: apart from `send`, since 28 of the message is told before the permit's refusal: no plainer as one.
    pub fn send_message(
        held: Option<Permit>,
        sender: Sender,
        channel: usize,
        cargo: &[u8],
        clock: u64,
        timeout: u32,
        out: &mut [u8],
    ) -> Result<Allowed, Refusal>
        ensures value { result ≡ sends.answer sends.messages held sender channel cargo.now (length out.old) clock timeout }
        ensures out_after { out.new ≡ sends.output sends.messages held sender channel cargo.now out.old clock timeout }
    {
        let next = sender.next(channel, cargo.len(), out.len())?;
        let mut front = [0u8; Header::SIZE];
        next.header.write(&mut front).unwrap();
        let back = &cargo[next.from..next.from + (next.size - Header::SIZE)];
        if let Err(refusal) = judge::ask(held, next.header.length, clock, timeout) {
            writer::measure(1, &front, back, out.len())?;
            return Err(refusal);
        }
        let written = writer::write_joined(1, &front, back, out)?;
        Ok(Allowed {
            sender: next.sender,
            permit: None,
            written,
        })
    }
}
