// The message writers. How many bytes were written is lent back.
ghost use Rattle.std.specs.Prelude.{◌≡◌, length};
ghost use Rattle.std.specs.Result.{result_unwrap_or};
ghost use Rattle.refusals.specs.Number.{number_in};
ghost use Rattle.writer.specs.Message as messages;

use refusals::Refusal;

// An answer's value goes to a lent place, `otherwise` where it is a refusal; its number is the answer.
pub fn lent_back<T: Copy>(answer: Result<T, Refusal>, otherwise: T, told: &mut T) -> u8
    ensures value { result ≡ number_in answer }
    ensures told_after { told.new ≡ result_unwrap_or answer otherwise }
{
    *told = answer.unwrap_or(otherwise);
    refusals::number_in(&answer)
}

// Writes a message with this ID and payload to the front of `out`: 0, 30 or 28.
#[unsafe(no_mangle)]
pub extern "C" fn boherlin_write(id: u8, payload: &[u8], out: &mut [u8], written: &mut usize) -> u8
    ensures value { result ≡ number_in (messages.write_answer id payload.now (length out.old)) }
    ensures out_after { out.new ≡ messages.output_after id payload.now out.old }
    ensures written_after { written.new ≡ messages.written_in (messages.write_answer id payload.now (length out.old)) }
{
    lent_back(writer::write(id, payload, out), 0, written)
}

// A Buffer Status Query: 0 or 28.
#[unsafe(no_mangle)]
pub extern "C" fn boherlin_write_query(out: &mut [u8], written: &mut usize) -> u8
    ensures value { result ≡ number_in (messages.write_answer 0 messages.query_payload (length out.old)) }
    ensures out_after { out.new ≡ messages.output_after 0 messages.query_payload out.old }
    ensures written_after { written.new ≡ messages.written_in (messages.write_answer 0 messages.query_payload (length out.old)) }
{
    lent_back(writer::write_query(out), 0, written)
}

// A Buffer Status Notification of this much room: 0 or 28.
#[unsafe(no_mangle)]
pub extern "C" fn boherlin_write_notice(room: u16, out: &mut [u8], written: &mut usize) -> u8
    ensures value { result ≡ number_in (messages.write_answer 0 (messages.notice_payload room) (length out.old)) }
    ensures out_after { out.new ≡ messages.output_after 0 (messages.notice_payload room) out.old }
    ensures written_after { written.new ≡ messages.written_in (messages.write_answer 0 (messages.notice_payload room) (length out.old)) }
{
    lent_back(writer::write_notice(room, out), 0, written)
}
