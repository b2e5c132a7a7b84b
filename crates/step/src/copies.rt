// The carried bytes of a transfer, copied to the buffer 32 at a time: through a local array, since a compiler that
// cannot tell two slices apart copies from one to the other in small pieces.
ghost use Rattle.std.specs.Prelude.{◌≡◌, ◌+◌, ◌≤◌, length, drop};
ghost use Rattle.std.proofs.Math.Seq.{paste};

fn block(src: &[u8], from: usize, dst: &mut [u8], at: usize)
    requires { (from + 32 ≤ length src.now) × (at + 32 ≤ length dst.old) }
    ensures { dst.new ≡ paste dst.old at (drop from src.now) 32 }
{
    let mut b = [0u8; 32];
    b.copy_from_slice(&src[from..from + 32]);
    dst[at..at + 32].copy_from_slice(&b);
}

// Kept: no plainer: the blocks go by places, of which both clauses speak (`paste`).
// The `n` bytes of `src` from `from` on go to `dst` from `at` on.
pub(crate) fn copy(src: &[u8], from: usize, n: usize, dst: &mut [u8], at: usize)
    requires { (from + n ≤ length src.now) × (at + n ≤ length dst.old) }
    ensures { dst.new ≡ paste dst.old at (drop from src.now) n }
{
    if n < 32 {
        dst[at..at + n].copy_from_slice(&src[from..from + n]);
        return;
    }
    let last = n - 32;
    for i in (0..last).step_by(32) {
        block(src, from + i, dst, at + i);
    }
    block(src, from + last, dst, at + last);
}
