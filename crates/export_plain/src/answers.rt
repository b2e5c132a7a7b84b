// A receiver's answer and its cargo under way, given as the numbers that a receiver's row has for them.
ghost use Rattle.std.specs.Prelude.{◌≡◌};
ghost use Rattle.verdict.specs.Answer as answers;
ghost use Rattle.verdict.specs.Judge.{settings_of};
ghost use Rattle.receiver.specs.State.{sound};
ghost use Rattle.export_plain.specs.Answers as means;

use joining::Cargo;
use verdict::{Answer, Kind, Settings};

pub(crate) fn byte_of(x: usize) -> u8
    ensures { result ≡ means.byte_of x }
{
    (x % 256) as u8
}

pub(crate) fn tell(kind: Kind, number: u8, gap: u8, dropped: bool) -> Answer
    ensures { result ≡ answers.tell kind number gap dropped }
{
    Answer {
        kind,
        number,
        gap,
        dropped,
    }
}

#[tactic(auto, using(laws::proofs::Tests::tests), unfolding(crate::specs::Answers::answer_of))]
pub(crate) fn answer_of(numbers: &[usize; 6]) -> Answer
    ensures { result ≡ means.answer_of numbers.now }
{
    let [kind, number, gap, dropped, channel, length] = *numbers;
    let gap = byte_of(gap);
    let dropped = export::flag_of(dropped);
    match kind {
        0 => tell(Kind::Delivered { channel, length }, 0, gap, dropped),
        1 => tell(Kind::Part, 0, gap, dropped),
        2 => tell(Kind::Null, 0, 0, false),
        _ => tell(Kind::Refused, byte_of(number), gap, dropped),
    }
}

// An answer's number; its gap, and whether a cargo was dropped, are told.
#[unsafe(no_mangle)]
pub extern "C" fn boherlin_told(answer: &[usize; 6], gap: &mut u8, dropped: &mut bool) -> u8
    ensures value { result ≡ (means.answer_of answer.now).number }
    ensures gap_after { gap.new ≡ (means.answer_of answer.now).gap }
    ensures dropped_after { dropped.new ≡ (means.answer_of answer.now).dropped }
{
    let a = answer_of(answer);
    *gap = a.gap;
    *dropped = a.dropped;
    a.number
}

// The delivered cargo, a part of the buffer that it was taken into.
#[unsafe(no_mangle)]
pub extern "C" fn boherlin_delivered<'a>(answer: &[usize; 6], cargo: &'a [u8], part: &mut &'a [u8])
    ensures { answers.IsDelivered (means.answer_of answer.now) cargo.entry part.new }
{
    *part = verdict::delivered(answer_of(answer), cargo);
}

pub(crate) fn underway_in(numbers: &[usize; 4]) -> Option<Cargo>
    ensures { result ≡ means.underway_in numbers.now }
{
    let [flag, channel, total, held] = *numbers;
    export::underway_of(flag, channel, total, held)
}

// Whether a record with these settings and this cargo under way is sound.
#[unsafe(no_mangle)]
pub extern "C" fn boherlin_is_sound(limit: usize, count: usize, underway: &[usize; 4]) -> bool
    ensures { result ≡ sound (settings_of limit count) (means.underway_in underway.now) }
{
    let settings = Settings { limit, count };
    receiver::is_sound(settings, underway_in(underway))
}
