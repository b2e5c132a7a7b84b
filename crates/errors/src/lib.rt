// The error list response, read: how many codes it has, and the code at a place with its meaning.
#![tactic(auto)]

mod meanings;

ghost use Rattle.std.specs.Prelude.{◌≡◌};
ghost use Rattle.errors.specs.ErrorList.{count_of, code_at};

pub use meanings::{Meaning, meaning_of};
use refusals::Refusal;

#[derive(Clone, Copy, Debug, PartialEq, Eq)]
pub struct Code {
    pub code: u8,
    pub meaning: Meaning,
}

// How many codes the list has.
#[tactic(auto, using(laws::proofs::Tests::tests), unfolding(crate::specs::ErrorList::is_error_list, crate::specs::ErrorList::count_of))]
pub fn count_codes(cargo: &[u8]) -> Result<usize, Refusal>
    ensures { result ≡ count_of cargo.now }
{
    let [1, codes @ ..] = cargo else {
        return Err(Refusal::NoErrorList);
    };
    Ok(codes.len())
}

// The code at a place, counted from 0, and none at or past their number.
#[tactic(auto, using(laws::proofs::Tests::tests), unfolding(crate::specs::ErrorList::code_at, crate::specs::ErrorList::count_of))]
pub fn code_at(cargo: &[u8], place: usize) -> Result<Option<Code>, Refusal>
    ensures { result ≡ code_at cargo.now place }
{
    if count_codes(cargo)? <= place {
        return Ok(None);
    }
    // Kept: tried `[1, codes @ ..]` with `codes.get(place)`: the proof did not close.
    let code = cargo[place + 1];
    Ok(Some(Code {
        code,
        meaning: meaning_of(code),
    }))
}
