// An entry, written to the front of a lent output.
#![tactic(auto)]

ghost use Rattle.std.specs.Prelude.{◌≡◌, length};
ghost use Rattle.entry_writer.specs.Write.{write_answer, entry_written};

use refusals::Refusal;

// How many bytes were written, or why none was.
#[tactic(auto, using(laws::proofs::Tests::tests), unfolding(crate::specs::Write::write_answer, crate::specs::Write::entry_written))]
pub fn write_entry(out: &mut [u8], tag: u8, value: &[u8]) -> Result<usize, Refusal>
    ensures value { result ≡ write_answer (length out.old) (length value.now) }
    ensures out_after { out.new ≡ entry_written out.old tag value.now }
{
    let n = value.len();
    if 255 < n {
        return Err(Refusal::LongValue);
    }
    if out.len() < n + 2 {
        return Err(Refusal::ShortOutput);
    }
    out[0] = tag;
    out[1] = n as u8;
    out[2..n + 2].copy_from_slice(value);
    Ok(n + 2)
}
