// A receiver for C.
ghost use Rattle.std.specs.Prelude.{◌≡◌, length};
ghost use Rattle.export.specs.Receivers as rows;

// Takes one transfer. The lent cargo buffer holds the cargo under way.
#[unsafe(no_mangle)]
pub extern "C" fn boherlin_take(row: &mut [usize], transfer: &[u8], cargo: &mut [u8]) -> u8
    ensures value { result ≡ rows.take_number row.old transfer.now (length cargo.old) }
    ensures row_after { row.new ≡ rows.row_taken row.old transfer.now (length cargo.old) }
    ensures cargo_after { cargo.new ≡ rows.cargo_taken row.old transfer.now cargo.old }
{
    export::boherlin_take(row, transfer, cargo)
}

// Copies every channel's missing count, then every channel's repeats: 23, 28 or 0.
#[unsafe(no_mangle)]
pub extern "C" fn boherlin_copy_counts(row: &[usize], counts: &mut [u32]) -> u8
    ensures value { result ≡ rows.counts_number row.now (length counts.old) }
    ensures counts_after { counts.new ≡ rows.counts_copied row.now counts.old }
{
    export::boherlin_copy_counts(row, counts)
}

// Sets both counts to zero for all channels: 23 or 0.
#[unsafe(no_mangle)]
pub extern "C" fn boherlin_clear_counts(row: &mut [usize]) -> u8
    ensures value { result ≡ rows.clear_number row.old }
    ensures row_after { row.new ≡ rows.row_cleared row.old }
{
    export::boherlin_clear_counts(row)
}
