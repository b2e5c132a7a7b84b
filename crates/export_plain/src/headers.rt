// The four header bytes of a transfer, and a channel's numbers.
ghost use Rattle.std.specs.Prelude.{◌≡◌, length as size};
ghost use Rattle.refusals.specs.Number.{number_in};
ghost use Rattle.header.specs.Header as headers;
ghost use Rattle.header.specs.Sequence as sequence;
ghost use Rattle.export_plain.specs.Headers as tells;

use header::{Counter, Header};
use refusals::Refusal;

fn header_numbers(h: Header) -> [usize; 4]
    ensures { result ≡ tells.header_numbers h }
{
    let continuation = export::flag_number(h.continuation);
    [continuation, h.length, h.channel, usize::from(h.number)]
}

fn reading_numbers(reading: Result<Option<Header>, Refusal>) -> [usize; 4]
    ensures { result ≡ tells.reading_numbers reading }
{
    match reading {
        Ok(Some(h)) => header_numbers(h),
        _ => [0; 4],
    }
}

// Reads the first bytes of a transfer: 0, or 2 where it has under four.
#[unsafe(no_mangle)]
pub extern "C" fn boherlin_read_header(transfer: &[u8], told: &mut [usize; 4]) -> u8
    ensures value { result ≡ number_in (headers.reading_of transfer.now) }
    ensures told_after { told.new ≡ tells.reading_numbers (headers.reading_of transfer.now) }
{
    let reading = Header::read(transfer);
    *told = reading_numbers(reading);
    refusals::number_in(&reading)
}

// Writes the four bytes to the front of `out`: 0, 3, 9 or 28.
#[unsafe(no_mangle)]
pub extern "C" fn boherlin_write_header(
    continuation: bool,
    length: usize,
    channel: usize,
    number: u8,
    out: &mut [u8],
) -> u8
    ensures value { result ≡ number_in (headers.writing_of (tells.header_of continuation length channel number) (size out.old)) }
    ensures out_after { out.new ≡ headers.header_written (tells.header_of continuation length channel number) out.old }
{
    let header = Header {
        continuation,
        length,
        channel,
        number,
    };
    refusals::number_in(&header.write(out))
}

// The number that every channel begins with.
#[unsafe(no_mangle)]
pub extern "C" fn boherlin_first_number() -> u8
    ensures { result ≡ (sequence.fresh_counter).next }
{
    Counter::fresh().next
}

// The number that follows on a channel.
#[unsafe(no_mangle)]
pub extern "C" fn boherlin_next_number(number: u8) -> u8
    ensures { result ≡ (sequence.stepped record { next = number }).next }
{
    Counter { next: number }.step().next
}

// How far the number received is ahead of the one expected.
#[unsafe(no_mangle)]
pub extern "C" fn boherlin_gap(received: u8, expected: u8) -> u8
    ensures { result ≡ sequence.gap_of received expected }
{
    header::gap(received, expected)
}
