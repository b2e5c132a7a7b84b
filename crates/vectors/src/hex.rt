// Bytes as hexadecimal digits, two to a byte; other characters are passed over.
ghost use Rattle.std.specs.Prelude.{◌≤◌, length};

// Fills the front of `out`: how many bytes were put.
pub(crate) fn decode(text: &[u8], out: &mut [u8]) -> usize
    ensures { result ≤ length out.old }
{
    let mut digits = 0;
    for c in text {
        if let Some(digit) = (*c as char).to_digit(16)
            && let Some(byte) = out.get_mut(digits / 2)
        {
            *byte = *byte % 16 * 16 + digit as u8;
            digits += 1;
        }
    }
    digits / 2
}
