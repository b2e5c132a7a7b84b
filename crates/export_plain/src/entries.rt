// The entries of an advertisement.
ghost use Rattle.std.specs.Prelude.{◌≡◌, length as size};
ghost use Rattle.refusals.specs.Number as says;
ghost use Rattle.advert.specs.Entry.{entry_at, IsValue};
ghost use Rattle.advert.specs.Walk.{next_place};
ghost use Rattle.entry_writer.specs.Write.{write_answer, entry_written};
ghost use Rattle.export_plain.specs.Entries as tells;

use advert::Entry;
use refusals::{Refusal, number_in};

fn entry_numbers(answer: Result<Option<Entry>, Refusal>) -> [usize; 5]
    ensures { result ≡ tells.entry_numbers answer }
{
    match answer {
        Ok(Some(entry)) => [
            0,
            entry.tag as usize,
            entry.length,
            entry.next,
            entry.mark as usize,
        ],
        Ok(None) => [1, 0, 0, 0, 0],
        Err(_) => [2, 0, 0, 0, 0],
    }
}

// What stands at a place: 0, 34 or 35.
// Kept: of one shape with boherlin_code_at, since C calls both by name.
#[unsafe(no_mangle)]
pub extern "C" fn boherlin_entry_at(cargo: &[u8], place: usize, told: &mut [usize; 5]) -> u8
    ensures value { result ≡ says.number_in (entry_at cargo.now place) }
    ensures told_after { told.new ≡ tells.entry_numbers (entry_at cargo.now place) }
{
    let answer = advert::entry_at(cargo, place);
    *told = entry_numbers(answer);
    number_in(&answer)
}

// What an advertisement opened at this place hands out, and the place that it keeps then: 0, 34 or 35.
#[unsafe(no_mangle)]
pub extern "C" fn boherlin_next_entry(cargo: &[u8], place: &mut usize, told: &mut [usize; 5]) -> u8
    ensures value { result ≡ says.number_in (entry_at cargo.now place.old) }
    ensures place_after { place.new ≡ next_place cargo.now place.old }
    ensures told_after { told.new ≡ tells.entry_numbers (entry_at cargo.now place.old) }
{
    let turn = opened::turn_at(cargo, *place);
    *place = turn.place;
    *told = entry_numbers(turn.answer);
    number_in(&turn.answer)
}

// The value of the entry at a place, a part of the cargo.
#[unsafe(no_mangle)]
pub extern "C" fn boherlin_value_at<'a>(cargo: &'a [u8], place: usize, part: &mut &'a [u8])
    ensures { IsValue cargo.entry (entry_at cargo.now place) part.new }
{
    *part = advert::value_at(cargo, place);
}

// Writes an entry to the front of `out`: 0, 36 or 28.
#[unsafe(no_mangle)]
pub extern "C" fn boherlin_write_entry(
    tag: u8,
    value: &[u8],
    out: &mut [u8],
    written: &mut usize,
) -> u8
    ensures value { result ≡ says.number_in (write_answer (size out.old) (size value.now)) }
    ensures out_after { out.new ≡ entry_written out.old tag value.now }
    ensures written_after { written.new ≡ tells.written_of (write_answer (size out.old) (size value.now)) }
{
    export::lent_back(entry_writer::write_entry(out, tag, value), 0, written)
}
