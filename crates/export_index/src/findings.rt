// A question to an index. It does not look at where the next entry would begin, which is not lent.
ghost use Rattle.std.specs.Prelude.{◌≡◌, length as size};
ghost use Rattle.refusals.specs.Number as says;
ghost use Rattle.index.specs.Index.{index_of};
ghost use Rattle.index.specs.Find.{found, IsFound};
ghost use Rattle.export_index.specs.Told as means;

use index::{Found, Parts};
use refusals::{Refusal, number_in};

fn finding_numbers(answer: Result<Option<Found>, Refusal>) -> [usize; 3]
    ensures { result ≡ means.finding_numbers answer }
{
    match answer {
        Ok(Some(Found { place, length })) => [0, place, length],
        Ok(None) => [1, 0, 0],
        Err(_) => [2, 0, 0],
    }
}

// Where the value of a tag's n-th entry lies, the first of which has occurrence 1: 0 or 23.
#[unsafe(no_mangle)]
pub extern "C" fn boherlin_find_tag<'a>(
    cargo: &[u8],
    tags: &'a [u8; 64],
    places: &'a [usize; 64],
    lengths: &'a [usize; 64],
    count: usize,
    tag: u8,
    occurrence: usize,
    told: &mut [usize; 3],
) -> u8
    ensures value { result ≡ says.number_in (found (index_of tags.now places.now lengths.now count 0) (size cargo.now) tag occurrence) }
    ensures told_after { told.new ≡ means.finding_numbers (found (index_of tags.now places.now lengths.now count 0) (size cargo.now) tag occurrence) }
{
    let parts = Parts {
        tags,
        places,
        lengths,
        count,
    };
    let answer = parts.find(cargo.len(), tag, occurrence);
    *told = finding_numbers(answer);
    number_in(&answer)
}

// The value itself, a part of the cargo.
#[unsafe(no_mangle)]
pub extern "C" fn boherlin_tag_value<'a>(
    cargo: &'a [u8],
    tags: &[u8; 64],
    places: &[usize; 64],
    lengths: &[usize; 64],
    count: usize,
    tag: u8,
    occurrence: usize,
    part: &mut &'a [u8],
)
    ensures { IsFound cargo.entry (found (index_of tags.now places.now lengths.now count 0) (size cargo.now) tag occurrence) part.new }
{
    let parts = Parts {
        tags,
        places,
        lengths,
        count,
    };
    *part = parts.value(cargo, tag, occurrence);
}
