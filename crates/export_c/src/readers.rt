// A message reader for C.
ghost use Rattle.std.specs.Prelude.{◌≡◌};
ghost use Rattle.export.specs.Readers as rows;

// Takes one byte. The lent message buffer holds the message under way.
#[unsafe(no_mangle)]
pub extern "C" fn boherlin_step(row: &mut [usize], b: u8, message: &mut [u8]) -> u8
    ensures value { result ≡ rows.step_number row.old b message.old }
    ensures row_after { row.new ≡ rows.row_stepped row.old b message.old }
    ensures message_after { message.new ≡ rows.message_stepped row.old b message.old }
{
    export::boherlin_step(row, b, message)
}

// Takes bytes from a place on, until a message closes or the input ends.
#[unsafe(no_mangle)]
pub extern "C" fn boherlin_read(
    row: &mut [usize],
    input: &[u8],
    from: usize,
    message: &mut [u8],
) -> u8
    ensures value { result ≡ rows.read_number row.old input.now from message.old }
    ensures row_after { row.new ≡ rows.row_read row.old input.now from message.old }
    ensures message_after { message.new ≡ rows.message_read row.old input.now from message.old }
{
    export::boherlin_read(row, input, from, message)
}
