// Puts each case of standard input to the call that its letter names, and writes what the call gave.
#![tactic(auto)]

mod calls;
mod hex;
mod say;

ghost use Rattle.std.specs.Prelude.{◌≤◌, length};

use std::io::{Read, Stdin, Stdout};

// The letter stands behind the tab. A line without one is a title.
fn case(to: Stdout, behind: &[u8], row: &[u8]) {
    match behind {
        [_, b'S', ..] => calls::send(to, row),
        [_, b'M', ..] => calls::write(to, row),
        [_, b'L', ..] => calls::hear(to, row),
        [_, _, ..] => say::text(to, b" is no case\n"),
        _ => say::text(to, b"\n"),
    }
}

// The label, then what the call gave. A case has at most 64 bytes.
fn line(to: Stdout, text: &[u8]) {
    let end = text.iter().position(|b| *b == b'\t').unwrap_or(text.len());
    let (label, behind) = text.split_at(end);
    let mut row = [0; 64];
    let n = hex::decode(behind, &mut row);
    say::text(to, label);
    case(to, behind, &row[..n]);
}

fn run(to: Stdout, text: &[u8]) {
    for ended in text.split_inclusive(|b| *b == b'\n') {
        line(to, ended.strip_suffix(b"\n").unwrap_or(ended));
    }
}

// Reads until the buffer is full, the input ends or a read fails: how many bytes stand at the front.
fn read_full(mut from: Stdin, input: &mut [u8]) -> usize
    ensures { result ≤ length input.new }
{
    let mut done = 0;
    // Kept: a read takes as many bytes as come.
    while done < input.len() {
        let n = from.read(&mut input[done..]).unwrap_or(0);
        if n == 0 {
            break;
        }
        done += n;
    }
    done
}

fn main(rt: HostRuntime) {
    let mut text = [0u8; 4096];
    let n = read_full(rt.stdin(), &mut text);
    run(rt.stdout(), &text[..n]);
}
