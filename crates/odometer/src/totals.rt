// A turn total in a cargo.
ghost use Rattle.std.specs.Prelude.{◌≡◌};
ghost use Rattle.odometer.specs.Total as says;

const KIND: u8 = 1;

// The total that a cargo carries: five bytes, kind 1 before it.
#[tactic(auto, using(laws::proofs::Tests::tests), unfolding(crate::specs::Total::total_in))]
pub fn total_in(cargo: &[u8]) -> Option<u32>
    ensures { result ≡ says.total_in cargo.now }
{
    match cargo {
        [KIND, a, b, c, d] => Some(u32::from_le_bytes([*a, *b, *c, *d])),
        _ => None,
    }
}
