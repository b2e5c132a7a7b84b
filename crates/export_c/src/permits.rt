// A permit for C, alone and beside a sender.
ghost use Rattle.std.specs.Prelude.{◌≡◌, length};
ghost use Rattle.permit.specs.Send as sends;
ghost use Rattle.export.specs.Fresh.{fresh_number};
ghost use Rattle.export.specs.Permits as rows;

// Makes a row the permit that a Notification of `room` bytes gives at this clock: 0 or 23.
#[unsafe(no_mangle)]
pub extern "C" fn boherlin_grant(room: u16, clock: u64, permit: &mut [usize]) -> u8
    ensures value { result ≡ fresh_number 3 permit.old }
    ensures permit_after { permit.new ≡ rows.row_granted room clock permit.old }
{
    export::boherlin_grant(room, clock, permit)
}

// Writes the next transfer of the cargo where the permit allows it: 23, 9, 26, 27, 29, 28, 43, 45, 44 or 0.
#[unsafe(no_mangle)]
pub extern "C" fn boherlin_permitted_send(
    row: &mut [usize],
    permit: &mut [usize],
    channel: usize,
    cargo: &[u8],
    clock: u64,
    timeout: u32,
    out: &mut [u8],
) -> u8
    ensures value { result ≡ rows.number_after (λ p s. sends.answer sends.transfers p s channel cargo.now (length out.old) clock timeout) row.old permit.old }
    ensures row_after { row.new ≡ rows.row_after (λ p s. sends.answer sends.transfers p s channel cargo.now (length out.old) clock timeout) row.old permit.old }
    ensures permit_after { permit.new ≡ rows.permit_after (λ p s. sends.answer sends.transfers p s channel cargo.now (length out.old) clock timeout) row.old permit.old }
    ensures out_after { out.new ≡ rows.out_after (λ p s. sends.output sends.transfers p s channel cargo.now out.old clock timeout) row.old permit.old out.old }
{
    export::boherlin_permitted_send(row, permit, channel, cargo, clock, timeout, out)
}

// Writes the UART message that carries it: the same numbers, and 28 asks for the message's bytes.
#[unsafe(no_mangle)]
pub extern "C" fn boherlin_permitted_message(
    row: &mut [usize],
    permit: &mut [usize],
    channel: usize,
    cargo: &[u8],
    clock: u64,
    timeout: u32,
    out: &mut [u8],
) -> u8
    ensures value { result ≡ rows.number_after (λ p s. sends.answer sends.messages p s channel cargo.now (length out.old) clock timeout) row.old permit.old }
    ensures row_after { row.new ≡ rows.row_after (λ p s. sends.answer sends.messages p s channel cargo.now (length out.old) clock timeout) row.old permit.old }
    ensures permit_after { permit.new ≡ rows.permit_after (λ p s. sends.answer sends.messages p s channel cargo.now (length out.old) clock timeout) row.old permit.old }
    ensures out_after { out.new ≡ rows.out_after (λ p s. sends.output sends.messages p s channel cargo.now out.old clock timeout) row.old permit.old out.old }
{
    export::boherlin_permitted_message(row, permit, channel, cargo, clock, timeout, out)
}
