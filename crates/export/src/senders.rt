// A sender lent as a row of 40 numbers.
ghost use Rattle.std.specs.Prelude.{◌≡◌, ◌++◌, ◌≤◌, length, drop};
ghost use Rattle.export.specs.Senders as rows;

use crate::{numbers, places};
use refusals::Refusal;
use sender::{Sender, Sent};
use verdict::Settings;

pub(crate) const ROW: usize = 40;

pub(crate) fn load_sender(row: &[usize]) -> Sender
    requires { 39 ≤ length row.now }
    ensures { result ≡ rows.sender_of row.now }
{
    Sender {
        settings: Settings {
            limit: row[32],
            count: row[33],
        },
        largest: row[38],
        counters: places::load_counters(row, 0),
        underway: numbers::underway_of(row[34], row[35], row[36], row[37]),
    }
}

pub(crate) fn store_sender(s: Sender, row: &mut [usize])
    requires { 39 ≤ length row.old }
    ensures { row.new ≡ rows.sender_numbers s ++ drop 39 row.old }
{
    places::store_counters(s.counters, row, 0);
    places::store(&numbers::limits(s.settings, s.underway), row, 32);
    places::store(&[s.largest], row, 38);
}

// All 40: the sender, and how many bytes the last call wrote.
pub(crate) fn store_sent(s: Sender, written: usize, row: &mut [usize])
    requires { length row.old ≡ 40 }
    ensures { row.new ≡ rows.sent_numbers s written }
{
    store_sender(s, row);
    places::store(&[written], row, 39);
}

// All 40 after a send that is refused. Cold: a sender that is kept for this case makes every send a fifth slower.
#[cold]
#[inline(never)]
fn store_unsent(row: &mut [usize])
    requires { length row.old ≡ 40 }
    ensures { row.new ≡ rows.sent_numbers (rows.sender_of row.old) 0 }
{
    store_sent(load_sender(row), 0, row);
}

// Writes the next transfer of the cargo: 23, 9, 26, 27, 29, 28 or 0.
#[unsafe(no_mangle)]
#[tactic(auto, unfolding(crate::specs::Senders::send_number, crate::specs::Senders::row_sent, crate::specs::Senders::out_sent))]
pub extern "C" fn boherlin_send(
    row: &mut [usize],
    channel: usize,
    cargo: &[u8],
    out: &mut [u8],
) -> u8
    ensures value { result ≡ rows.send_number row.old channel (length cargo.now) (length out.old) }
    ensures row_after { row.new ≡ rows.row_sent row.old channel (length cargo.now) (length out.old) }
    ensures out_after { out.new ≡ rows.out_sent row.old channel cargo.now out.old }
{
    if row.len() != ROW {
        return Refusal::Unsound.number();
    }
    match load_sender(row).send(channel, cargo, out) {
        Ok(Sent { sender, written }) => {
            store_sent(sender, written, row);
            0
        }
        Err(refusal) => {
            store_unsent(row);
            refusal.number()
        }
    }
}

// Gives up the cargo under way: 23 or 0.
#[unsafe(no_mangle)]
#[tactic(auto, unfolding(crate::specs::Senders::abandon_number, crate::specs::Senders::row_abandoned))]
pub extern "C" fn boherlin_abandon(row: &mut [usize]) -> u8
    ensures value { result ≡ rows.abandon_number row.old }
    ensures row_after { row.new ≡ rows.row_abandoned row.old }
{
    if row.len() != ROW {
        return Refusal::Unsound.number();
    }
    let before = load_sender(row);
    let given_up = before.abandon();
    store_sender(given_up.unwrap_or(before), row);
    refusals::number_in(&given_up)
}
