// One channel's four numbers and the cargo under way, for loops that hold a receiver's parts.
ghost use Rattle.std.specs.Prelude.{◌≡◌, ◌%◌, length};
ghost use Rattle.step.specs.Step as takes;
ghost use Rattle.export.specs.Fields as fields;
ghost use Rattle.export.specs.Receivers as rows;
ghost use Rattle.export_plain.specs.Steps as steps;

use crate::answers;
use verdict::Settings;

// Takes one transfer, which changes its channel's numbers, the cargo under way and the lent cargo buffer.
#[unsafe(no_mangle)]
pub extern "C" fn boherlin_step_in(
    limit: usize,
    count: usize,
    underway: &mut [usize; 4],
    channel: &mut [usize; 4],
    transfer: &[u8],
    cargo: &mut [u8],
    answer: &mut [usize; 6],
) -> u8
    ensures value { result ≡ (steps.stepped limit count underway.old channel.old transfer.now (length cargo.old)).answer.number }
    ensures underway_after { underway.new ≡ fields.underway_numbers (steps.stepped limit count underway.old channel.old transfer.now (length cargo.old)).underway }
    ensures channel_after { channel.new ≡ fields.channel_numbers (steps.stepped limit count underway.old channel.old transfer.now (length cargo.old)).channel }
    ensures cargo_after { cargo.new ≡ takes.bytes_in (steps.step limit count underway.old channel.old transfer.now (length cargo.old)) transfer.now cargo.old }
    ensures answer_after { answer.new ≡ rows.answer_numbers (steps.stepped limit count underway.old channel.old transfer.now (length cargo.old)).answer }
{
    let [expected, heard, missing, repeats] = *channel;
    let kept = export::channel_from(expected, heard, missing, repeats);
    let before = answers::underway_in(underway);
    let settings = Settings { limit, count };
    let sound = receiver::is_sound(settings, before);
    let step = step::step_in(sound, settings, before, kept, transfer, cargo);
    let taken = step::taken_by(kept, before, step);
    *underway = export::underway_numbers(taken.underway);
    *channel = export::channel_numbers(taken.channel);
    *answer = export::answer_numbers(taken.answer);
    taken.answer.number
}

// The place of a transfer's channel among 32.
#[unsafe(no_mangle)]
pub extern "C" fn boherlin_slot(transfer: &[u8]) -> usize
    ensures { result ≡ takes.channel_of transfer.now % 32 }
{
    step::channel_of(transfer) % 32
}
