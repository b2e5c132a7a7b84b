// A program's argument: a whole number in decimal.
#![tactic(auto)]

ghost use Rattle.std.specs.Prelude.{◌≡◌};
ghost use Rattle.arguments.specs.Number as says;

// The number that a text is, where it is one or more digits and from `least` to `most`.
#[tactic(auto, using(laws::proofs::Tests::tests, crate::proofs::Digits::no_less, crate::proofs::Digits::too_large, crate::proofs::Digits::step, crate::proofs::Digits::no_digit, crate::proofs::Digits::ended), unfolding(crate::specs::Number::number_in))]
pub fn number_in(text: &[u8], least: u32, most: u32) -> Option<u64>
    ensures { result ≡ says.number_in least most text.now }
{
    if text.is_empty() {
        return None;
    }
    let mut number: u64 = 0;
    for digit in text {
        if !digit.is_ascii_digit() {
            return None;
        }
        number = number * 10 + (*digit - b'0') as u64;
        if number > most as u64 {
            return None;
        }
    }
    (number >= least as u64).then_some(number)
}
