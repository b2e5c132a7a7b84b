// A sender for C.
ghost use Rattle.std.specs.Prelude.{◌≡◌, length};
ghost use Rattle.export.specs.Senders as rows;

// Writes the next transfer of the cargo: 23, 9, 26, 27, 29, 28 or 0.
#[unsafe(no_mangle)]
pub extern "C" fn boherlin_send(
    row: &mut [usize],
    channel: usize,
    cargo: &[u8],
    out: &mut [u8],
) -> u8
    ensures value { result ≡ rows.send_number row.old channel (length cargo.now) (length out.old) }
    ensures row_after { row.new ≡ rows.row_sent row.old channel (length cargo.now) (length out.old) }
    ensures out_after { out.new ≡ rows.out_sent row.old channel cargo.now out.old }
{
    export::boherlin_send(row, channel, cargo, out)
}

// Gives up the cargo under way: 23 or 0.
#[unsafe(no_mangle)]
pub extern "C" fn boherlin_abandon(row: &mut [usize]) -> u8
    ensures value { result ≡ rows.abandon_number row.old }
    ensures row_after { row.new ≡ rows.row_abandoned row.old }
{
    export::boherlin_abandon(row)
}
