// One transfer cut off a cargo.
ghost use Rattle.std.specs.Prelude.{◌≡◌, ◌++◌, ◌+◌, ◌≤◌, ◌<◌, length, take, drop};
ghost use Rattle.header.specs.Header.{header_bytes};
ghost use Rattle.sender.specs.Send as sends;

use header::Header;
use joining::Cargo;
use receiver::Receiver;

// The bytes of the next transfer, where `left` of the cargo's are not sent.
#[tactic(auto, unfolding(crate::specs::Send::size_of))]
pub(crate) fn size_of(largest: usize, left: usize) -> usize
    requires { left ≤ 32766 }
    ensures { result ≡ sends.size_of largest left }
{
    largest.min(left + Receiver::HEADER)
}

// The cargo under way once `done` of its m bytes are sent.
#[tactic(auto, using(laws::proofs::Tests::tests), unfolding(crate::specs::Send::underway_at))]
pub(crate) fn underway_at(channel: usize, m: usize, done: usize) -> Option<Cargo>
    ensures { result ≡ sends.underway_at channel m done }
{
    (done < m).then_some(Cargo {
        channel,
        total: m,
        held: done,
    })
}

// Kept: the part is cut here: tried with the part lent, and an edit that must fail was not refused by the clause.
// The header's four bytes, then `carried` of the cargo's bytes from `from`; what is behind them stays.
pub(crate) fn write(h: Header, cargo: &[u8], from: usize, carried: usize, out: &mut [u8])
    requires { (h.length ≤ 32767) × (h.channel ≤ 255) × (from + carried ≤ length cargo.now) × (4 + carried ≤ length out.old) }
    ensures { out.new ≡ header_bytes h ++ take carried (drop from cargo.now) ++ drop (4 + carried) out.old }
{
    h.write(out).unwrap();
    out[4..4 + carried].copy_from_slice(&cargo[from..from + carried]);
}
