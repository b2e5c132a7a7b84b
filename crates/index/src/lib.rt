// An index of an advertisement: a tag's value is found without walking.
#![tactic(auto)]

mod findings;
mod growth;

ghost use Rattle.std.specs.Prelude.{◌≡◌};
ghost use Rattle.index.specs.Index as says;

pub use findings::Found;

// The first `count` places: each entry's tag, and its value's place and length, in the order they stand. The next entry
// would begin at `next`.
// Kept: three arrays side by side, since C lends them as they are and none is copied (boherlin_find_tag).
#[derive(Clone, Copy)]
pub struct Index {
    pub tags: [u8; 64],
    pub places: [usize; 64],
    pub lengths: [usize; 64],
    pub count: usize,
    pub next: usize,
}

// An index lent as its parts, so that none is copied. Where the next entry would begin is not among them.
#[derive(Clone, Copy)]
pub struct Parts<'a> {
    pub tags: &'a [u8; 64],
    pub places: &'a [usize; 64],
    pub lengths: &'a [usize; 64],
    pub count: usize,
}

impl Index {
    pub const MOST: usize = 64;

    // The index before a walk that begins at a place.
    pub fn empty(place: usize) -> Index
        ensures { result ≡ says.empty_at place }
    {
        Index {
            tags: [0; 64],
            places: [0; 64],
            lengths: [0; 64],
            count: 0,
            next: place,
        }
    }

    fn parts(&self) -> Parts<'_>
        ensures { says.of_parts result ≡ says.index_of self.now.tags self.now.places self.now.lengths self.now.count 0 }
    {
        Parts {
            tags: &self.tags,
            places: &self.places,
            lengths: &self.lengths,
            count: self.count,
        }
    }
}

impl<'a> Parts<'a> {
    // Whether an index has no more entries than it can, each with its value within so many bytes.
    #[tactic(auto, using(laws::proofs::Tests::tests, crate::proofs::Listing::turns), unfolding(crate::specs::Index::sound))]
    fn is_sound(self, bytes: usize) -> bool
        ensures { result ≡ says.sound (says.of_parts self.entry) bytes }
    {
        if Index::MOST < self.count {
            return false;
        }
        // Kept: no plainer: a zip of two arrays, cut at the count, for one test of both.
        for i in 0..self.count {
            if bytes < self.places[i] || bytes - self.places[i] < self.lengths[i] {
                return false;
            }
        }
        true
    }
}
