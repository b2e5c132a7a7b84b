// An index stored to its parts.
ghost use Rattle.std.specs.Prelude.{◌≡◌};

use index::Index;

pub(crate) fn store(
    index: &Index,
    tags: &mut [u8; 64],
    places: &mut [usize; 64],
    lengths: &mut [usize; 64],
    count: &mut usize,
    next: &mut usize,
)
    ensures tags_after { tags.new ≡ index.now.tags }
    ensures places_after { places.new ≡ index.now.places }
    ensures lengths_after { lengths.new ≡ index.now.lengths }
    ensures count_after { count.new ≡ index.now.count }
    ensures next_after { next.new ≡ index.now.next }
{
    // Kept: `*tags = index.tags` is refused by the borrow checker; three `copy_from_slice` were tried, and were slower.
    let Index {
        tags: all_tags,
        places: all_places,
        lengths: all_lengths,
        ..
    } = *index;
    *tags = all_tags;
    *places = all_places;
    *lengths = all_lengths;
    *count = index.count;
    *next = index.next;
}
