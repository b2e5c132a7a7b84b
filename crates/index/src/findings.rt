// A question to an index: where the value of a tag's n-th entry lies.
ghost use Rattle.std.specs.Prelude.{◌≡◌, length as size};
ghost use Rattle.index.specs.Index.{of_parts};
ghost use Rattle.index.specs.Find as says;

use crate::{Index, Parts};
use refusals::Refusal;

#[derive(Clone, Copy, Debug, PartialEq, Eq)]
pub struct Found {
    pub place: usize,
    pub length: usize,
}

impl<'a> Parts<'a> {
    // The question over an advertisement of so many bytes. The first entry with the tag has occurrence 1.
    #[tactic(auto, using(laws::proofs::Tests::tests, crate::proofs::Listing::turns, crate::proofs::Listing::few), unfolding(crate::specs::Find::found))]
    pub fn find(self, bytes: usize, tag: u8, occurrence: usize) -> Result<Option<Found>, Refusal>
        ensures { result ≡ says.found (of_parts self.entry) bytes tag occurrence }
    {
        if !self.is_sound(bytes) {
            return Err(Refusal::Unsound);
        }
        let Some(mut before) = occurrence.checked_sub(1) else {
            return Ok(None);
        };
        // Kept: no plainer: a chain over three arrays, one of which says which is meant, for a question that stops early.
        for i in 0..self.count {
            if self.tags[i] == tag {
                if before == 0 {
                    return Ok(Some(Found {
                        place: self.places[i],
                        length: self.lengths[i],
                    }));
                }
                before -= 1;
            }
        }
        Ok(None)
    }

    // The value found, a part of the cargo. Where none was found it is empty, at the cargo's start.
    #[tactic(auto, using(crate::proofs::Within::found_within))]
    pub fn value<'c>(self, cargo: &'c [u8], tag: u8, occurrence: usize) -> &'c [u8]
        ensures { says.IsFound cargo.entry (says.found (of_parts self.entry) (size cargo.now) tag occurrence) result }
    {
        let Ok(Some(Found { place, length })) = self.find(cargo.len(), tag, occurrence) else {
            return &cargo[..0];
        };
        &cargo[place..place + length]
    }
}

impl Index {
    #[tactic(auto, using(crate::proofs::Arrays::found_arrays))]
    pub fn find(&self, cargo: &[u8], tag: u8, occurrence: usize) -> Result<Option<Found>, Refusal>
        ensures { result ≡ says.found self.now (size cargo.now) tag occurrence }
    {
        self.parts().find(cargo.len(), tag, occurrence)
    }

    #[tactic(auto, using(crate::proofs::Arrays::found_arrays))]
    pub fn value<'c>(&self, cargo: &'c [u8], tag: u8, occurrence: usize) -> &'c [u8]
        ensures { says.IsFound cargo.entry (says.found self.now (size cargo.now) tag occurrence) result }
    {
        self.parts().value(cargo, tag, occurrence)
    }
}
