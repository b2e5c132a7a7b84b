// Words, numbers and bytes on standard output.
use refusals::Refusal;
use std::io::{Print, Stdout};

pub(crate) fn text(to: Stdout, words: &[u8]) {
    let _ = to.write_all(words);
}

// A number behind its words.
pub(crate) fn number(to: Stdout, words: &[u8], n: usize) {
    text(to, words);
    let _ = print!(to; "{n}");
}

// A whole output, and the line's end.
pub(crate) fn output(to: Stdout, out: &[u8]) {
    text(to, b";");
    for b in out {
        let _ = print!(to; " {b:02x}");
    }
    text(to, b"\n");
}

// What a call answered, how many bytes it wrote, and its output.
pub(crate) fn written(to: Stdout, answer: &Result<usize, Refusal>, out: &[u8]) {
    number(to, b": answer ", refusals::number_in(answer) as usize);
    number(to, b", written ", answer.unwrap_or(0));
    output(to, out);
}
