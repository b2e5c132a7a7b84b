// An advertisement opened once: it hands out its entries in turn and keeps its place.
#![tactic(auto)]

ghost use Rattle.std.specs.Prelude.{◌≡◌};
ghost use Rattle.advert.specs.Entry.{IsValue};
ghost use Rattle.opened.specs.Opened.{opened, answer_of, stepped, turn_of};

use advert::{Entry, entry_at, value_at};
use refusals::Refusal;

#[derive(Clone, Copy)]
pub struct Advertisement<'a> {
    pub cargo: &'a [u8],
    pub place: usize,
}

// What a call hands out, and the place that is kept then.
#[derive(Clone, Copy, Debug, PartialEq, Eq)]
pub struct Turn {
    pub answer: Result<Option<Entry>, Refusal>,
    pub place: usize,
}

impl<'a> Advertisement<'a> {
    pub fn open(cargo: &'a [u8], place: usize) -> Advertisement<'a>
        ensures { result ≡ opened cargo.entry place }
    {
        Advertisement { cargo, place }
    }

    // The value of the entry that is handed out next, a part of the cargo.
    pub fn value(self) -> &'a [u8]
        ensures { IsValue self.entry.cargo (answer_of self.entry) result }
    {
        value_at(self.cargo, self.place)
    }

    // Hands out what stands at its place. After an entry it stands at the next one; else it stays.
    pub fn next(&mut self) -> Result<Option<Entry>, Refusal>
        ensures value { result ≡ answer_of self.old }
        ensures self_after { self.new ≡ stepped self.old }
    {
        let answer = entry_at(self.cargo, self.place);
        if let Ok(Some(entry)) = answer {
            self.place = entry.next;
        }
        answer
    }
}

// An advertisement opened at a place and called once. Callers of this function hold no advertisement.
pub fn turn_at(cargo: &[u8], place: usize) -> Turn
    ensures { result ≡ turn_of (opened cargo.entry place) }
{
    let mut ad = Advertisement::open(cargo, place);
    let answer = ad.next();
    Turn {
        answer,
        place: ad.place,
    }
}
