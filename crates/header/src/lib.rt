// The four header bytes of a transfer, read and written, and a channel's counter.
#![tactic(auto)]

mod sequence;

ghost use Rattle.std.specs.Prelude.{◌≡◌, length};
ghost use Rattle.header.specs.Header.{reading_of_bytes, reading_of, writing_of, header_written};

use refusals::Refusal;
pub use sequence::{Counter, gap};

// What a header that is not null tells: first transfer or continuation, L, channel, number.
#[derive(Clone, Copy, Debug, PartialEq, Eq)]
pub struct Header {
    pub continuation: bool,
    pub length: usize,
    pub channel: usize,
    pub number: u8,
}

#[tactic(auto, using(laws::proofs::Tests::tests), unfolding(crate::specs::Header::reading_of_bytes))]
fn of_bytes(low: u8, high: u8, channel: u8, number: u8) -> Option<Header>
    ensures { result ≡ reading_of_bytes low high channel number }
{
    let field = usize::from(u16::from_le_bytes([low, high]));
    let length = field % 32768;
    if length == 0 {
        return None;
    }
    Some(Header {
        continuation: 32768 <= field,
        length,
        channel: usize::from(channel),
        number,
    })
}

impl Header {
    pub const SIZE: usize = 4;

    #[tactic(auto, using(laws::proofs::Tests::tests), unfolding(crate::specs::Header::reading_of))]
    // The header of a transfer, and none where it is null.
    pub fn read(transfer: &[u8]) -> Result<Option<Header>, Refusal>
        ensures { result ≡ reading_of transfer.now }
    {
        let [low, high, channel, number, ..] = transfer else {
            return Err(Refusal::ShortTransfer);
        };
        Ok(of_bytes(*low, *high, *channel, *number))
    }

    // Writes the four bytes to the front of `out`.
    #[tactic(auto, using(laws::proofs::Tests::tests), unfolding(crate::specs::Header::writing_of, crate::specs::Header::header_written))]
    pub fn write(self, out: &mut [u8]) -> Result<(), Refusal>
        ensures value { result ≡ writing_of self (length out.old) }
        ensures out_after { out.new ≡ header_written self out.old }
    {
        if 32767 < self.length {
            return Err(Refusal::LongTransfer);
        }
        if 255 < self.channel {
            return Err(Refusal::NoSuchChannel);
        }
        if out.len() < Header::SIZE {
            return Err(Refusal::ShortOutput);
        }
        let mark = if self.continuation { 32768 } else { 0 };
        let [low, high] = (self.length as u16 + mark).to_le_bytes();
        out[..4].copy_from_slice(&[low, high, self.channel as u8, self.number]);
        Ok(())
    }
}
