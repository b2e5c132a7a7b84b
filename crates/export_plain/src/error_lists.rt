// The error list response.
ghost use Rattle.std.specs.Prelude.{◌≡◌};
ghost use Rattle.refusals.specs.Number as says;
ghost use Rattle.errors.specs.ErrorList as lists;
ghost use Rattle.errors.specs.Meanings.{meaning_of};
ghost use Rattle.export_plain.specs.ErrorLists as tells;

use errors::Code;
use refusals::{Refusal, number_in};

// How many codes there are: 0 or 37.
#[unsafe(no_mangle)]
pub extern "C" fn boherlin_count_codes(cargo: &[u8], count: &mut usize) -> u8
    ensures value { result ≡ says.number_in (lists.count_of cargo.now) }
    ensures count_after { count.new ≡ tells.count_told (lists.count_of cargo.now) }
{
    export::lent_back(errors::count_codes(cargo), 0, count)
}

// The meaning of a code: its line in 004's table, 13 where it is in none.
#[unsafe(no_mangle)]
pub extern "C" fn boherlin_meaning_of(code: u8) -> usize
    ensures { result ≡ tells.meaning_number (meaning_of code) }
{
    errors::meaning_of(code) as usize
}

fn code_numbers(answer: Result<Option<Code>, Refusal>) -> [usize; 3]
    ensures { result ≡ tells.code_numbers answer }
{
    match answer {
        Ok(Some(found)) => [0, found.code as usize, found.meaning as usize],
        Ok(None) => [1, 0, 0],
        Err(_) => [2, 0, 0],
    }
}

// The code at a place, counted from 0: 0 or 37.
#[unsafe(no_mangle)]
pub extern "C" fn boherlin_code_at(cargo: &[u8], place: usize, told: &mut [usize; 3]) -> u8
    ensures value { result ≡ says.number_in (lists.code_at cargo.now place) }
    ensures told_after { told.new ≡ tells.code_numbers (lists.code_at cargo.now place) }
{
    let answer = errors::code_at(cargo, place);
    *told = code_numbers(answer);
    number_in(&answer)
}
