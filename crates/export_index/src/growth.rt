// An index built, and extended.
ghost use Rattle.std.specs.Prelude.{◌≡◌};
ghost use Rattle.refusals.specs.Number as says;
ghost use Rattle.index.specs.Grow.{built, extended, after_call};
ghost use Rattle.index.specs.Index.{index_of, empty_at};

use crate::parts;
use index::Index;

// Indexes an advertisement whose walk begins at a place: 0, 34, 35 or 38.
#[unsafe(no_mangle)]
pub extern "C" fn boherlin_build_index(
    cargo: &[u8],
    place: usize,
    tags: &mut [u8; 64],
    places: &mut [usize; 64],
    lengths: &mut [usize; 64],
    count: &mut usize,
    next: &mut usize,
) -> u8
    ensures value { result ≡ says.number_in (built cargo.now place) }
    ensures tags_after { tags.new ≡ (after_call (empty_at place) cargo.now).tags }
    ensures places_after { places.new ≡ (after_call (empty_at place) cargo.now).places }
    ensures lengths_after { lengths.new ≡ (after_call (empty_at place) cargo.now).lengths }
    ensures count_after { count.new ≡ (after_call (empty_at place) cargo.now).count }
    ensures next_after { next.new ≡ (after_call (empty_at place) cargo.now).next }
{
    match Index::build(cargo, place) {
        Ok(index) => {
            parts::store(&index, tags, places, lengths, count, next);
            0
        }
        Err(refusal) => {
            parts::store(&Index::empty(place), tags, places, lengths, count, next);
            refusal.number()
        }
    }
}

// Indexes what was added at the end of an advertisement, which is lent whole: 0, 23, 34, 35 or 38.
#[unsafe(no_mangle)]
pub extern "C" fn boherlin_extend_index(
    cargo: &[u8],
    tags: &mut [u8; 64],
    places: &mut [usize; 64],
    lengths: &mut [usize; 64],
    count: &mut usize,
    next: &mut usize,
) -> u8
    ensures value { result ≡ says.number_in (extended (index_of tags.old places.old lengths.old count.old next.old) cargo.now) }
    ensures tags_after { tags.new ≡ (after_call (index_of tags.old places.old lengths.old count.old next.old) cargo.now).tags }
    ensures places_after { places.new ≡ (after_call (index_of tags.old places.old lengths.old count.old next.old) cargo.now).places }
    ensures lengths_after { lengths.new ≡ (after_call (index_of tags.old places.old lengths.old count.old next.old) cargo.now).lengths }
    ensures count_after { count.new ≡ (after_call (index_of tags.old places.old lengths.old count.old next.old) cargo.now).count }
    ensures next_after { next.new ≡ (after_call (index_of tags.old places.old lengths.old count.old next.old) cargo.now).next }
{
    let before = Index {
        tags: *tags,
        places: *places,
        lengths: *lengths,
        count: *count,
        next: *next,
    };
    match before.extend(cargo) {
        Ok(index) => {
            parts::store(&index, tags, places, lengths, count, next);
            0
        }
        Err(refusal) => refusal.number(),
    }
}
