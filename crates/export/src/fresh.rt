// Fresh records, stored to lent rows.
ghost use Rattle.std.specs.Prelude.{◌≡◌, [], ◌∷◌};
ghost use Rattle.reader.specs.Reader.{outside};
ghost use Rattle.export.specs.Readers.{phase_number};
ghost use Rattle.export.specs.Fresh as rows;

use crate::{readers, receivers, senders};
use reader::Reader;
use receiver::Receiver;
use refusals::Refusal;
use sender::Sender;
use verdict::Settings;

// Makes a row a fresh receiver's; what the last answer told stays: 0 or 23.
#[unsafe(no_mangle)]
#[tactic(auto, unfolding(crate::specs::Fresh::fresh_number, crate::specs::Fresh::receiver_row))]
pub extern "C" fn boherlin_fresh_receiver(limit: usize, count: usize, row: &mut [usize]) -> u8
    ensures value { result ≡ rows.fresh_number 140 row.old }
    ensures row_after { row.new ≡ rows.receiver_row limit count row.old }
{
    if row.len() != receivers::ROW {
        return Refusal::Unsound.number();
    }
    let settings = Settings { limit, count };
    receivers::store_receiver(Receiver::fresh(settings), row);
    0
}

// Makes a row a fresh sender's; what the last call wrote stays: 0 or 23.
#[unsafe(no_mangle)]
#[tactic(auto, unfolding(crate::specs::Fresh::fresh_number, crate::specs::Fresh::sender_row))]
pub extern "C" fn boherlin_fresh_sender(
    limit: usize,
    count: usize,
    largest: usize,
    row: &mut [usize],
) -> u8
    ensures value { result ≡ rows.fresh_number 40 row.old }
    ensures row_after { row.new ≡ rows.sender_row limit count largest row.old }
{
    if row.len() != senders::ROW {
        return Refusal::Unsound.number();
    }
    let settings = Settings { limit, count };
    senders::store_sender(Sender::fresh(settings, largest), row);
    0
}

// A message reader before any byte: its phase and the bytes held.
#[unsafe(no_mangle)]
pub extern "C" fn boherlin_outside(numbers: &mut [usize; 2])
    ensures { numbers.new ≡ phase_number outside.phase ∷ outside.held ∷ [] }
{
    let reader = Reader::outside();
    *numbers = [readers::phase_number(reader.phase), reader.held];
}
