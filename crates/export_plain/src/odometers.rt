// An odometer lent as five numbers. What it made of the last cargo is told in two.
ghost use Rattle.std.specs.Prelude.{◌≡◌};
ghost use Rattle.std.specs.Result.{result_unwrap_or};
ghost use Rattle.refusals.specs.Number.{number_in};
ghost use Rattle.odometer.specs.Odometer as says;
ghost use Rattle.export_plain.specs.Answers as means;
ghost use Rattle.export_plain.specs.Odometers as rows;

use crate::answers;
use odometer::{Heard, Odometer, Outcome};
use refusals::Refusal;

fn odometer_of(row: &[usize; 5]) -> Odometer
    ensures { result ≡ rows.odometer_of row.now }
{
    let [channel, circumference, based, last, turns] = *row;
    Odometer {
        channel,
        circumference: circumference as u64,
        based: export::flag_of(based),
        last: export::count_of(last),
        turns: turns as u64,
    }
}

fn odometer_numbers(o: Odometer) -> [usize; 5]
    ensures { result ≡ rows.odometer_numbers o }
{
    [
        o.channel,
        o.circumference as usize,
        export::flag_number(o.based),
        export::count_number(o.last),
        o.turns as usize,
    ]
}

fn outcome_numbers(outcome: Outcome) -> [usize; 2]
    ensures { result ≡ rows.outcome_numbers outcome }
{
    match outcome {
        Outcome::Passed => [0, 0],
        Outcome::Base => [1, 0],
        Outcome::Advanced { turns } => [2, turns as usize],
        Outcome::Refused(_) => [3, 0],
    }
}

// Makes a row a fresh odometer's.
#[unsafe(no_mangle)]
pub extern "C" fn boherlin_fresh_odometer(channel: usize, circumference: u64, row: &mut [usize; 5])
    ensures { row.new ≡ rows.odometer_numbers (says.fresh_odometer channel circumference) }
{
    *row = odometer_numbers(Odometer::fresh(channel, circumference));
}

fn store(heard: Heard, row: &mut [usize; 5], told: &mut [usize; 2]) -> u8
    ensures value { result ≡ says.number_of heard.outcome }
    ensures row_after { row.new ≡ rows.odometer_numbers heard.odometer }
    ensures told_after { told.new ≡ rows.outcome_numbers heard.outcome }
{
    *row = odometer_numbers(heard.odometer);
    *told = outcome_numbers(heard.outcome);
    heard.outcome.number()
}

// Hears a cargo that was delivered on a channel: 0, or 39 to 42.
#[unsafe(no_mangle)]
pub extern "C" fn boherlin_hear(
    row: &mut [usize; 5],
    channel: usize,
    cargo: &[u8],
    told: &mut [usize; 2],
) -> u8
    ensures value { result ≡ says.number_of (says.hear (rows.odometer_of row.old) channel cargo.now).outcome }
    ensures row_after { row.new ≡ rows.odometer_numbers (says.hear (rows.odometer_of row.old) channel cargo.now).odometer }
    ensures told_after { told.new ≡ rows.outcome_numbers (says.hear (rows.odometer_of row.old) channel cargo.now).outcome }
{
    let heard = odometer_of(row).hear(channel, cargo);
    store(heard, row, told)
}

// Hears what a receiver answered to a transfer, with the cargo buffer after it: 0, or 39 to 42.
#[unsafe(no_mangle)]
pub extern "C" fn boherlin_hear_answer(
    row: &mut [usize; 5],
    answer: &[usize; 6],
    cargo: &[u8],
    told: &mut [usize; 2],
) -> u8
    ensures value { result ≡ says.number_of (says.hear_answer (rows.odometer_of row.old) (means.answer_of answer.now) cargo.now).outcome }
    ensures row_after { row.new ≡ rows.odometer_numbers (says.hear_answer (rows.odometer_of row.old) (means.answer_of answer.now) cargo.now).odometer }
    ensures told_after { told.new ≡ rows.outcome_numbers (says.hear_answer (rows.odometer_of row.old) (means.answer_of answer.now) cargo.now).outcome }
{
    let heard = odometer_of(row).hear_answer(answers::answer_of(answer), cargo);
    store(heard, row, told)
}

// The distance, 0 where it is refused: 0, 39 or 42.
#[unsafe(no_mangle)]
pub extern "C" fn boherlin_distance(row: &[usize; 5], millimetres: &mut u64) -> u8
    ensures value { result ≡ number_in (says.distance_of (rows.odometer_of row.now)) }
    ensures millimetres_after { millimetres.new ≡ result_unwrap_or (says.distance_of (rows.odometer_of row.now)) 0 }
{
    export::lent_back(odometer_of(row).distance(), 0, millimetres)
}

// The total that a cargo carries, 0 where it carries none: 0 or 40.
#[unsafe(no_mangle)]
pub extern "C" fn boherlin_total_in(cargo: &[u8], total: &mut u32) -> u8
    ensures value { result ≡ number_in (rows.carried_in cargo.now) }
    ensures total_after { total.new ≡ result_unwrap_or (rows.carried_in cargo.now) 0 }
{
    let carried = odometer::total_in(cargo).ok_or(Refusal::NoTotal);
    export::lent_back(carried, 0, total)
}
