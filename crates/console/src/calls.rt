// Streams whose calls are made again where a signal interrupted one or nothing was ready.
ghost use Rattle.console.specs.Calls.{LastCall};

use std::io::{Error, ErrorKind, Read, Result, Write};
use std::thread::yield_now;

// A stream that waits: a call that fails in passing is made again.
#[derive(Drop)]
pub(crate) struct Patient<S>(pub(crate) S);

// Whether the call that has just failed is to be made again. What was not ready gets time: others run first.
fn is_passing(error: Error) -> bool {
    match error.kind() {
        ErrorKind::WouldBlock => {
            yield_now();
            true
        }
        kind => kind == ErrorKind::Interrupted,
    }
}

// Makes a call until it does not fail in passing. A proved loop has to end, and nothing says when a call succeeds: no run
// uses up these turns.
fn again<F: FnMut() -> Result<usize>>(mut call: F) -> Result<usize>
    requires { F.IsAlwaysCallable call }
    ensures { LastCall (λ s r t. F.step s r t) call result }
{
    for _ in 0..u64::MAX {
        match call() {
            Err(error) if is_passing(error) => {}
            got => return got,
        }
    }
    call()
}

impl<R: Read> Read for Patient<R> {
    fn read(&mut self, buf: &mut [u8]) -> Result<usize> {
        again(|| self.0.read(buf))
    }
}

impl<W: Write> Write for Patient<W> {
    fn write(&mut self, buf: &[u8]) -> Result<usize> {
        again(|| self.0.write(buf))
    }

    fn flush(&mut self) -> Result<()> {
        self.0.flush()
    }
}
