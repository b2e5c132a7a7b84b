// What stands at a place of an advertisement.
ghost use Rattle.std.specs.Prelude.{◌≡◌};
ghost use Rattle.advert.specs.Entry.{entry_at, IsValue};

use crate::tags;
use crate::tags::Mark;
use refusals::Refusal;

// An entry: its value ends where the next entry begins.
#[derive(Clone, Copy, Debug, PartialEq, Eq)]
pub struct Entry {
    pub tag: u8,
    pub length: usize,
    pub next: usize,
    pub mark: Mark,
}

// The entry at a place, and none at or past the end. Inlined: a walk for C takes 0.4 of the time then.
#[inline]
#[tactic(auto, using(laws::proofs::Tests::tests), unfolding(crate::specs::Entry::entry_at))]
pub fn entry_at(cargo: &[u8], place: usize) -> Result<Option<Entry>, Refusal>
    ensures { result ≡ entry_at cargo.now place }
{
    match cargo.get(place..) {
        None | Some([]) => Ok(None),
        Some([_]) => Err(Refusal::OneByteLeft),
        Some([tag, length, rest @ ..]) => {
            let length = *length as usize;
            if rest.len() < length {
                return Err(Refusal::ValuePastEnd);
            }
            Ok(Some(Entry {
                tag: *tag,
                length,
                next: place + 2 + length,
                mark: tags::mark_of(*tag, length),
            }))
        }
    }
}

// The value of the entry at a place, a part of the cargo. Where no entry stands there it is empty, at the cargo's
// start.
#[tactic(auto, using(crate::proofs::Inside::inside))]
pub fn value_at(cargo: &[u8], place: usize) -> &[u8]
    ensures { IsValue cargo.entry (entry_at cargo.now place) result }
{
    let Ok(Some(entry)) = entry_at(cargo, place) else {
        return &cargo[..0];
    };
    &cargo[entry.next - entry.length..entry.next]
}
