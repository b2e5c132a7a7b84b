// Where a new transfer's bytes go.
ghost use Rattle.std.specs.Prelude.{◌≡◌};
ghost use Rattle.joining.specs.Joining as says;

use crate::Cargo;
use header::Header;

// The cargo that the bytes join, behind those held, or none; and whether a cargo under way is lost.
#[derive(Clone, Copy, Debug, PartialEq, Eq)]
pub struct Joining {
    pub cargo: Option<Cargo>,
    pub dropped: bool,
}

// A continuation that is not joined.
fn unjoined(dropped: bool) -> Joining
    ensures { result ≡ says.unjoined dropped }
{
    Joining {
        cargo: None,
        dropped,
    }
}

// A first transfer.
fn begin(h: Header, dropped: bool) -> Joining
    ensures { result ≡ says.begin h dropped }
{
    let cargo = Cargo {
        channel: h.channel,
        total: h.length.saturating_sub(Header::SIZE),
        held: 0,
    };
    Joining {
        cargo: Some(cargo),
        dropped,
    }
}

// A continuation, where this cargo is under way.
#[tactic(auto, using(laws::proofs::Tests::tests), unfolding(crate::specs::Joining::join))]
fn join(h: Header, room: usize, gap: u8, cargo: Cargo) -> Joining
    ensures { result ≡ says.join h room gap cargo }
{
    let due = cargo.total.saturating_sub(cargo.held);
    let carries = h.length.saturating_sub(Header::SIZE);
    if cargo.channel == h.channel && gap == 0 && carries == due && cargo.total <= room {
        return Joining {
            cargo: Some(cargo),
            dropped: false,
        };
    }
    unjoined(true)
}

// Where a new transfer's bytes go, by the cargo under way.
#[tactic(auto, unfolding(crate::specs::Joining::place))]
pub fn place(underway: Option<Cargo>, h: Header, room: usize, gap: u8) -> Joining
    ensures { result ≡ says.place underway h room gap }
{
    match underway {
        None if h.continuation => unjoined(false),
        Some(cargo) if h.continuation => join(h, room, gap, cargo),
        _ => begin(h, underway.is_some()),
    }
}

// How many cargo bytes a transfer of n bytes carries to the buffer.
#[tactic(auto, unfolding(crate::specs::Joining::carried_of))]
pub fn carried_of(joined: bool, n: usize, length: usize) -> usize
    ensures { result ≡ says.carried_of joined n length }
{
    if joined {
        n.min(length).saturating_sub(Header::SIZE)
    } else {
        0
    }
}
