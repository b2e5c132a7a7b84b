// A permit lent as a row of 3 numbers, alone and beside a sender's row.
ghost use Rattle.std.specs.Prelude.{◌≡◌, length};
ghost use Rattle.permit.specs.Send as sends;
ghost use Rattle.export.specs.Fresh.{fresh_number};
ghost use Rattle.export.specs.Senders.{sent_numbers};
ghost use Rattle.refusals.specs.Number.{number_in};
ghost use Rattle.export.specs.Permits as rows;

use crate::senders;
use permit::{Allowed, Permit};
use refusals::Refusal;
use sender::Sender;

const ROW: usize = 3;

#[tactic(auto, using(laws::proofs::Tests::tests), unfolding(crate::specs::Permits::permit_of))]
fn load_permit(row: &[usize]) -> Option<Permit>
    requires { length row.now ≡ 3 }
    ensures { result ≡ rows.permit_of row.now }
{
    // Kept: no plainer: a pattern over a slice would need an arm for rows that never come.
    if row[0] == 0 {
        return None;
    }
    Some(Permit {
        room: (row[1] % 65536) as u16,
        came: row[2] as u64,
    })
}

fn store_permit(held: Option<Permit>, row: &mut [usize])
    requires { length row.old ≡ 3 }
    ensures { row.new ≡ rows.permit_numbers held }
{
    let numbers = match held {
        None => [0; 3],
        Some(permit) => [1, usize::from(permit.room), permit.came as usize],
    };
    row.copy_from_slice(&numbers);
}

// The sender and the permit that two rows hold; none where one is of another length.
#[tactic(auto, using(laws::proofs::Tests::tests), unfolding(crate::specs::Permits::fit))]
fn load(row: &[usize], permit: &[usize]) -> Option<(Sender, Option<Permit>)>
    ensures { result ≡ rows.loaded row.now permit.now }
{
    if row.len() == senders::ROW && permit.len() == ROW {
        return Some((senders::load_sender(row), load_permit(permit)));
    }
    None
}

// Both rows after a permitted call, and its answer's number.
fn store(
    sender: Sender,
    held: Option<Permit>,
    answer: Result<Allowed, Refusal>,
    row: &mut [usize],
    permit: &mut [usize],
) -> u8
    requires row_len { length row.old ≡ 40 }
    requires permit_len { length permit.old ≡ 3 }
    ensures value { result ≡ number_in answer }
    ensures row_after { row.new ≡ sent_numbers (sends.sender_after sender answer) (sends.written_in answer) }
    ensures permit_after { permit.new ≡ rows.permit_numbers (sends.permit_after held answer) }
{
    let (after, left, written) = match answer {
        Ok(allowed) => (allowed.sender, allowed.permit, allowed.written),
        Err(_) => (sender, held, 0),
    };
    senders::store_sent(after, written, row);
    store_permit(left, permit);
    refusals::number_in(&answer)
}

// Makes a row the permit that a Notification of `room` bytes gives at this clock: 0 or 23.
#[unsafe(no_mangle)]
#[tactic(auto, unfolding(crate::specs::Fresh::fresh_number, crate::specs::Permits::row_granted))]
pub extern "C" fn boherlin_grant(room: u16, clock: u64, permit: &mut [usize]) -> u8
    ensures value { result ≡ fresh_number 3 permit.old }
    ensures permit_after { permit.new ≡ rows.row_granted room clock permit.old }
{
    if permit.len() != ROW {
        return Refusal::Unsound.number();
    }
    store_permit(Some(Permit::granted(room, clock)), permit);
    0
}

// Writes the next transfer of the cargo where the permit allows it: 23, 9, 26, 27, 29, 28, 43, 45, 44 or 0.
// Kept: of one shape with boherlin_permitted_message, since C calls both by name.
#[unsafe(no_mangle)]
#[tactic(auto, using(crate::proofs::Carried::lengths, crate::proofs::Carried::refused, crate::proofs::Carried::carried), unfolding(crate::specs::Permits::fit, crate::specs::Permits::number_after, crate::specs::Permits::row_after, crate::specs::Permits::permit_after, crate::specs::Permits::out_after))]
pub extern "C" fn boherlin_permitted_send(
    row: &mut [usize],
    permit: &mut [usize],
    channel: usize,
    cargo: &[u8],
    clock: u64,
    timeout: u32,
    out: &mut [u8],
) -> u8
    ensures value { result ≡ rows.number_after (λ p s. sends.answer sends.transfers p s channel cargo.now (length out.old) clock timeout) row.old permit.old }
    ensures row_after { row.new ≡ rows.row_after (λ p s. sends.answer sends.transfers p s channel cargo.now (length out.old) clock timeout) row.old permit.old }
    ensures permit_after { permit.new ≡ rows.permit_after (λ p s. sends.answer sends.transfers p s channel cargo.now (length out.old) clock timeout) row.old permit.old }
    ensures out_after { out.new ≡ rows.out_after (λ p s. sends.output sends.transfers p s channel cargo.now out.old clock timeout) row.old permit.old out.old }
{
    let Some((sender, held)) = load(row, permit) else {
        return Refusal::Unsound.number();
    };
    let answer = Permit::send(held, sender, channel, cargo, clock, timeout, out);
    store(sender, held, answer, row, permit)
}

// Writes the UART message that carries it: the same numbers, and 28 asks for the message's bytes.
#[unsafe(no_mangle)]
#[tactic(auto, using(crate::proofs::Carried::lengths, crate::proofs::Carried::refused, crate::proofs::Carried::carried), unfolding(crate::specs::Permits::fit, crate::specs::Permits::number_after, crate::specs::Permits::row_after, crate::specs::Permits::permit_after, crate::specs::Permits::out_after))]
pub extern "C" fn boherlin_permitted_message(
    row: &mut [usize],
    permit: &mut [usize],
    channel: usize,
    cargo: &[u8],
    clock: u64,
    timeout: u32,
    out: &mut [u8],
) -> u8
    ensures value { result ≡ rows.number_after (λ p s. sends.answer sends.messages p s channel cargo.now (length out.old) clock timeout) row.old permit.old }
    ensures row_after { row.new ≡ rows.row_after (λ p s. sends.answer sends.messages p s channel cargo.now (length out.old) clock timeout) row.old permit.old }
    ensures permit_after { permit.new ≡ rows.permit_after (λ p s. sends.answer sends.messages p s channel cargo.now (length out.old) clock timeout) row.old permit.old }
    ensures out_after { out.new ≡ rows.out_after (λ p s. sends.output sends.messages p s channel cargo.now out.old clock timeout) row.old permit.old out.old }
{
    let Some((sender, held)) = load(row, permit) else {
        return Refusal::Unsound.number();
    };
    let answer = Permit::send_message(held, sender, channel, cargo, clock, timeout, out);
    store(sender, held, answer, row, permit)
}
