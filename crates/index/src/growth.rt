// An index built over an advertisement, and extended with the entries added at its end.
ghost use Rattle.std.specs.Prelude.{◌≡◌};
ghost use Rattle.index.specs.Grow as says;

use crate::Index;
use advert::entry_at;
use refusals::Refusal;

impl Index {
    // Indexes an advertisement whose walk begins at a place.
    pub fn build(cargo: &[u8], place: usize) -> Result<Index, Refusal>
        ensures { result ≡ says.built cargo.now place }
    {
        Index::empty(place).extend(cargo)
    }

    // Indexes what was added at the end of an advertisement, which is lent whole.
    #[tactic(auto, using(laws::proofs::Tests::tests, crate::proofs::Growing::steps), unfolding(crate::specs::Grow::extended))]
    pub fn extend(mut self, cargo: &[u8]) -> Result<Index, Refusal>
        ensures { result ≡ says.extended self cargo.now }
    {
        if !self.parts().is_sound(cargo.len()) {
            return Err(Refusal::Unsound);
        }
        while let Some(entry) = entry_at(cargo, self.next)? {
            let count = self.count;
            if count == Index::MOST {
                return Err(Refusal::FullIndex);
            }
            self.tags[count] = entry.tag;
            self.places[count] = entry.next - entry.length;
            self.lengths[count] = entry.length;
            self.count = count + 1;
            self.next = entry.next;
        }
        Ok(self)
    }
}
