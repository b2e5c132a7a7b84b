// A message reader above a receiver, for C.
ghost use Rattle.std.specs.Prelude.{◌≡◌, length};
ghost use Rattle.export.specs.Listeners as rows;

// Takes bytes from a place on, until a message closes or the input ends. The lent buffers hold the message and the
// cargo under way.
#[unsafe(no_mangle)]
pub extern "C" fn boherlin_listen(
    row: &mut [usize],
    input: &[u8],
    from: usize,
    message: &mut [u8],
    cargo: &mut [u8],
) -> u8
    ensures value { result ≡ rows.listen_number row.old input.now from message.old (length cargo.old) }
    ensures row_after { row.new ≡ rows.row_listened row.old input.now from message.old (length cargo.old) }
    ensures message_after { message.new ≡ rows.message_listened row.old input.now from message.old }
    ensures cargo_after { cargo.new ≡ rows.cargo_held row.old input.now from message.old cargo.old }
{
    export::boherlin_listen(row, input, from, message, cargo)
}
