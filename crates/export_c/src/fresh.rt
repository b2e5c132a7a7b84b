// Fresh records for C.
ghost use Rattle.std.specs.Prelude.{◌≡◌, [], ◌∷◌};
ghost use Rattle.reader.specs.Reader.{outside};
ghost use Rattle.export.specs.Readers.{phase_number};
ghost use Rattle.export.specs.Fresh as rows;

// Makes a row a fresh receiver's; what the last answer told stays: 0 or 23.
#[unsafe(no_mangle)]
pub extern "C" fn boherlin_fresh_receiver(limit: usize, count: usize, row: &mut [usize]) -> u8
    ensures value { result ≡ rows.fresh_number 140 row.old }
    ensures row_after { row.new ≡ rows.receiver_row limit count row.old }
{
    export::boherlin_fresh_receiver(limit, count, row)
}

// Makes a row a fresh sender's; what the last call wrote stays: 0 or 23.
#[unsafe(no_mangle)]
pub extern "C" fn boherlin_fresh_sender(
    limit: usize,
    count: usize,
    largest: usize,
    row: &mut [usize],
) -> u8
    ensures value { result ≡ rows.fresh_number 40 row.old }
    ensures row_after { row.new ≡ rows.sender_row limit count largest row.old }
{
    export::boherlin_fresh_sender(limit, count, largest, row)
}

// A message reader before any byte: its phase and the bytes held.
#[unsafe(no_mangle)]
pub extern "C" fn boherlin_outside(numbers: &mut [usize; 2])
    ensures { numbers.new ≡ phase_number outside.phase ∷ outside.held ∷ [] }
{
    export::boherlin_outside(numbers);
}
