// The UART messages, written; and the two control messages.
#![tactic(auto)]

ghost use Rattle.std.specs.Prelude.{◌≡◌, ◌++◌, ◌+◌, ◌≤◌, ltb, length, drop};
ghost use Rattle.std.proofs.lemmas.List.Edits.{sets};
ghost use Rattle.writer.specs.Message as messages;

use refusals::Refusal;

// Opens and closes a message.
pub const FLAG: u8 = 0x7E;

// Stands before a byte that is sent turned.
pub const ESCAPE: u8 = 0x7D;

// What a turned byte is XORed with.
pub const TURN: u8 = 0x20;

// Whether a byte is a flag or 0x7D, and not a plain one.
pub fn special(b: u8) -> bool
    ensures { result ≡ messages.special b }
{
    b == FLAG || b == ESCAPE
}

// How many bytes of a payload are escaped.
fn escapes(payload: &[u8]) -> usize
    ensures { result ≡ messages.escapes payload.now }
{
    // Kept: tried `filter(..).count()`: ten times slower where escapes come at random, for it branches at each byte.
    let mut count = 0;
    for b in payload {
        count += usize::from(special(*b));
    }
    count
}

// Whether an output is too short for a message whose payload is lent in two parts: no sum is formed that could wrap.
fn is_short(front: usize, back: usize, in_front: usize, in_back: usize, room: usize) -> bool
    ensures { result ≡ ltb room (3 + (front + back) + (in_front + in_back)) }
{
    room < 3
        || room - 3 < front
        || room - 3 - front < back
        || room - 3 - front - back < in_front
        || room - 3 - front - back - in_front < in_back
}

// Sends one byte to the output from `at` on: where the next one goes.
#[tactic(auto, using(laws::proofs::Tests::tests), unfolding(crate::specs::Message::sent))]
fn put(b: u8, out: &mut [u8], at: usize) -> usize
    requires { at + length (messages.sent b) ≤ length out.old }
    ensures value { result ≡ at + length (messages.sent b) }
    ensures out_after { out.new ≡ sets out.old at (messages.sent b) }
{
    if special(b) {
        out[at] = ESCAPE;
        out[at + 1] = b ^ TURN;
        return at + 2;
    }
    out[at] = b;
    at + 1
}

// Sends a payload to the output from `at` on: where the next byte goes.
fn put_all(payload: &[u8], out: &mut [u8], mut at: usize) -> usize
    requires { at + length (messages.escaped payload.now) ≤ length out.old }
    ensures value { result ≡ at + length (messages.escaped payload.now) }
    ensures out_after { out.new ≡ sets out.old at (messages.escaped payload.now) }
{
    for b in payload {
        at = put(*b, out, at);
    }
    at
}

// A message goes to the front of an output that has room for it.
fn put_message(id: u8, front: &[u8], back: &[u8], out: &mut [u8])
    requires { (id ≤ 1) × (messages.written_length (front.now ++ back.now) ≤ length out.old) }
    ensures { out.new ≡ messages.message id (front.now ++ back.now) ++ drop (messages.written_length (front.now ++ back.now)) out.old }
{
    out[0] = FLAG;
    out[1] = id;
    let at = put_all(front, out, 2);
    let end = put_all(back, out, at);
    out[end] = FLAG;
}

// What `write_joined` answers where the output has `room` bytes.
#[tactic(auto, using(laws::proofs::Tests::tests), unfolding(crate::specs::Message::write_answer))]
pub fn measure(id: u8, front: &[u8], back: &[u8], room: usize) -> Result<usize, Refusal>
    ensures { result ≡ messages.write_answer id (front.now ++ back.now) room }
{
    if 1 < id {
        return Err(Refusal::UnknownId);
    }
    let in_front = escapes(front);
    let in_back = escapes(back);
    if is_short(front.len(), back.len(), in_front, in_back, room) {
        return Err(Refusal::ShortOutput);
    }
    Ok(3 + front.len() + back.len() + in_front + in_back)
}

// Writes a message whose payload is lent in two parts to the front of `out`: how many bytes were written.
#[tactic(auto, unfolding(crate::specs::Message::output_after))]
pub fn write_joined(id: u8, front: &[u8], back: &[u8], out: &mut [u8]) -> Result<usize, Refusal>
    ensures value { result ≡ messages.write_answer id (front.now ++ back.now) (length out.old) }
    ensures out_after { out.new ≡ messages.output_after id (front.now ++ back.now) out.old }
{
    let written = measure(id, front, back, out.len())?;
    put_message(id, front, back, out);
    Ok(written)
}

// Writes a message with this ID and payload to the front of `out`.
pub fn write(id: u8, payload: &[u8], out: &mut [u8]) -> Result<usize, Refusal>
    ensures value { result ≡ messages.write_answer id payload.now (length out.old) }
    ensures out_after { out.new ≡ messages.output_after id payload.now out.old }
{
    write_joined(id, payload, &[], out)
}

// A Buffer Status Query.
pub fn write_query(out: &mut [u8]) -> Result<usize, Refusal>
    ensures value { result ≡ messages.write_answer 0 messages.query_payload (length out.old) }
    ensures out_after { out.new ≡ messages.output_after 0 messages.query_payload out.old }
{
    write(0, &[], out)
}

// A Buffer Status Notification of this much room.
pub fn write_notice(room: u16, out: &mut [u8]) -> Result<usize, Refusal>
    ensures value { result ≡ messages.write_answer 0 (messages.notice_payload room) (length out.old) }
    ensures out_after { out.new ≡ messages.output_after 0 (messages.notice_payload room) out.old }
{
    write(0, &room.to_le_bytes(), out)
}
