// Parts of a row: 32 places, one for each channel, and numbers.
ghost use Rattle.std.specs.Prelude.{◌≡◌, map, ◌+◌, ◌≤◌, length};
ghost use Rattle.std.proofs.Math.Seq.{paste};
ghost use Rattle.export.specs.Fields as fields;

use crate::numbers;
use header::Counter;

pub(crate) fn load_counters(row: &[usize], at: usize) -> [Counter; 32]
    requires { at + 32 ≤ length row.now }
    ensures { result ≡ map fields.counter_of (fields.part at row.now) }
{
    let mut counters = [Counter::fresh(); 32];
    // Kept: tried `std::array::from_fn`: the proof did not close.
    for i in 0..32 {
        counters[i] = numbers::counter_of(row[at + i]);
    }
    counters
}

pub(crate) fn store_counters(counters: [Counter; 32], row: &mut [usize], at: usize)
    requires { at + 32 ≤ length row.old }
    ensures row_after { row.new ≡ paste row.old at (map fields.counter_number counters) 32 }
    ensures counters_len { length counters ≡ 32 }
{
    // Kept: tried `store(&counters.map(..), row, at)`: slower (a send took 193 ns and not 60).
    for i in 0..32 {
        row[at + i] = numbers::counter_number(counters[i]);
    }
}

// Any numbers, from `at` on.
pub(crate) fn store(numbers: &[usize], row: &mut [usize], at: usize)
    requires { at + length numbers.now ≤ length row.old }
    ensures { row.new ≡ paste row.old at numbers.now (length numbers.now) }
{
    row[at..at + numbers.len()].copy_from_slice(numbers);
}
