// Runs of plain bytes, which are neither 0x7E nor 0x7D.
ghost use Rattle.std.specs.Prelude.{◌≡◌, ◌+◌, ◌≤◌, true, not, length, take, drop};
ghost use Rattle.std.specs.List.{prefix_len};
ghost use Rattle.std.proofs.Math.Seq.{paste};
ghost use Rattle.writer.specs.Message as messages;

use writer::special;

// Whether none of 16 bytes is escaped. There is no branch in the loop, so that it becomes vector code.
fn are_plain(bytes: &[u8]) -> bool
    requires { length bytes.now ≡ 16 }
    ensures { result ≡ true → messages.escapes bytes.now ≡ 0 }
{
    let mut any = false;
    for b in bytes {
        any |= special(*b);
    }
    !any
}

// How many plain bytes stand at the front, one by one.
fn plain_front(bytes: &[u8]) -> usize
    ensures { result ≡ prefix_len (λ b. not (messages.special b)) bytes.now }
{
    bytes.iter().take_while(|b| !special(**b)).count()
}

// How many plain bytes stand at the front: 16 at a time, then one by one.
fn run_length(bytes: &[u8]) -> usize
    ensures upper_bound { result ≤ length bytes.now }
    ensures plain { messages.escapes (take result bytes.now) ≡ 0 }
{
    let mut k = 0;
    // Kept: `chunks_exact(16).take_while(..)` over the blocks was tried, and its proof did not close.
    while 16 <= bytes.len() - k && are_plain(&bytes[k..k + 16]) {
        k += 16;
    }
    k + plain_front(&bytes[k..])
}

// Plain bytes from `from` on go to the buffer from `held` on, as many as fit: how many there were.
// Kept: two slices with their places, no plainer cut by the caller: the clause is `paste` at the places of both.
pub(crate) fn take_run(input: &[u8], from: usize, buf: &mut [u8], held: usize) -> usize
    requires { (from ≤ length input.now) × (held ≤ length buf.old) }
    ensures result_in_bounds { (from + result ≤ length input.now) × (held + result ≤ length buf.old) }
    ensures input_value { messages.escapes (take result (drop from input.now)) ≡ 0 }
    ensures buf_after { buf.new ≡ paste buf.old held (drop from input.now) result }
{
    let most = (input.len() - from).min(buf.len() - held);
    let n = run_length(&input[from..from + most]);
    buf[held..held + n].copy_from_slice(&input[from..from + n]);
    n
}
