// What a program does with the outside: standard input read, standard output gathered and written, and what it says
// where either fails.
#![tactic(auto)]

mod calls;

ghost use Rattle.std.specs.Prelude.{◌<◌, ◌≡◌, None, length};
ghost use Rattle.io.specs.Counts.{IsPrefixLen};
ghost use Rattle.console.specs.Room.{has_room, MadeRoom};

use calls::Patient;
use std::env::{Env, FillError};
use std::io::{Read, Stderr, Stdin, Stdout, Write};

// The three streams that a program is given: standard input, output and error.
#[derive(Clone, Copy)]
pub struct Streams {
    pub input: Stdin,
    pub output: Stdout,
    pub error: Stderr,
}

impl Streams {
    // The streams of the program that runs.
    pub fn of(rt: HostRuntime) -> Streams {
        Streams {
            input: rt.stdin(),
            output: rt.stdout(),
            error: rt.stderr(),
        }
    }
}

// Whether an argument stands at this place, the program's own name being at 0.
pub fn is_given(rt: &impl Env, place: usize) -> bool {
    !matches!(rt.arg(place, &mut [0u8; 1]), Err(FillError::NotPresent))
}

// Writes to standard error. Where that fails too, there is nobody left to tell.
pub fn say(streams: Streams, text: &[u8]) {
    let _ = Patient(streams.error).write_all(text);
}

// Reads standard input once: how many bytes stand at the front. 0 at its end, and, with `trouble` said, where it cannot
// be read.
// Kept: a number and no Result: its clause is `IsPrefixLen`, and the end and a failure are alike to its callers.
pub fn read(streams: Streams, input: &mut [u8], trouble: &[u8]) -> usize
    ensures { IsPrefixLen result input.new }
{
    match Patient(streams.input).read(input) {
        Ok(n) => n,
        Err(_) => {
            say(streams, trouble);
            0
        }
    }
}

// Writes the first `used` bytes of `out` to standard output: none where it has fewer, and, with `trouble` said, where
// they cannot be written.
pub fn flush(streams: Streams, out: &[u8], used: usize, trouble: &[u8]) -> Option<()>
    ensures { length out.now < used → result ≡ None }
{
    if out.len() < used {
        return None;
    }
    let written = Patient(streams.output).write_all(&out[..used]).ok();
    if written.is_none() {
        say(streams, trouble);
    }
    written
}

#[tactic(auto, unfolding(crate::specs::Room::has_room))]
fn has_room(more: usize, used: usize, n: usize) -> bool
    ensures { result ≡ has_room more used n }
{
    used <= n && more <= n - used
}

// Makes room for `more` bytes behind the first `used` bytes of `out`: where there is too little, those are written. How
// many bytes are gathered then; none where they cannot be written.
#[tactic(auto, unfolding(crate::specs::Room::has_room))]
pub fn make_room(
    streams: Streams,
    more: usize,
    out: &[u8],
    used: usize,
    trouble: &[u8],
) -> Option<usize>
    ensures { MadeRoom more used (length out.now) result }
{
    if has_room(more, used, out.len()) {
        return Some(used);
    }
    flush(streams, out, used, trouble)?;
    Some(0)
}
