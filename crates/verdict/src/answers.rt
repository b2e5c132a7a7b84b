// What a receiver answers to a transfer.
ghost use Rattle.std.specs.Prelude.{◌≡◌};
ghost use Rattle.verdict.specs.Answer as answers;

use refusals::Refusal;

// Only a delivered answer carries a cargo's channel and length.
#[derive(Clone, Copy, Debug, PartialEq, Eq)]
pub enum Kind {
    Delivered { channel: usize, length: usize },
    Part,
    Null,
    Refused,
}

// `gap` is 0 unless the gap step was reached; `dropped` says whether a cargo under way was lost.
#[derive(Clone, Copy, Debug, PartialEq, Eq)]
pub struct Answer {
    pub kind: Kind,
    // Kept: a number and no Refusal, since C may hand back any byte (boherlin_told, boherlin_line).
    pub number: u8,
    pub gap: u8,
    pub dropped: bool,
}

impl Answer {
    // To a null transfer.
    pub(crate) const NULL: Answer = Answer {
        kind: Kind::Null,
        number: 0,
        gap: 0,
        dropped: false,
    };
}

// To a transfer that is refused before its channel is asked.
impl From<Refusal> for Answer {
    ghost from_gives = { λ refusal answer. answer ≡ answers.refused refusal };

    fn from(refusal: Refusal) -> Answer {
        Answer {
            kind: Kind::Refused,
            number: refusal.number(),
            gap: 0,
            dropped: false,
        }
    }
}

// The delivered cargo, as a part of the buffer that it was taken into; an empty part for any other answer.
pub fn delivered(answer: Answer, cargo: &[u8]) -> &[u8]
    ensures { answers.IsDelivered answer cargo.entry result }
{
    let Kind::Delivered { length, .. } = answer.kind else {
        return &cargo[..0];
    };
    if cargo.len() < length {
        return &cargo[..0];
    }
    &cargo[..length]
}
