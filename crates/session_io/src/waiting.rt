// Reads and writes that wait: a call that a signal interrupted, or that would have to wait on a descriptor that does not, is made again. What fails for
// another reason is said on standard error, once, and ends the session. No run comes to the end of the counts of turns.
ghost use Rattle.std.specs.Prelude.{◌≤◌, length, IfOk};

use std::io::{Error, ErrorKind, Read, Stderr, Stdin, Stdout, Write};
use std::thread;

// A read or a write failed, and standard error says which and why.
#[derive(Clone, Copy, Debug, PartialEq, Eq)]
pub struct Failed;

// Whether the call that failed so is worth making again: where it would have had to wait, others go first.
fn again(error: &Error) -> bool {
    match error.kind() {
        ErrorKind::Interrupted => true,
        ErrorKind::WouldBlock => {
            thread::yield_now();
            true
        }
        _ => false,
    }
}

// Says what failed and why. Where that cannot be written either, nothing is left to say it on.
fn said(errors: Stderr, what: &str, error: &Error) -> Failed {
    let _ = eprintln!(errors; "session: {what}: {error}");
    Failed
}

// Reads some of standard input: how many bytes, none at the end of the input.
pub(crate) fn read_some(mut input: Stdin, errors: Stderr, buf: &mut [u8]) -> Result<usize, Failed>
    ensures { IfOk result (λ count. count ≤ length buf.new) }
{
    for _ in 0..u64::MAX {
        match input.read(buf) {
            Ok(count) => return Ok(count),
            Err(error) if again(&error) => {}
            Err(error) => return Err(said(errors, "standard input", &error)),
        }
    }
    Err(Failed)
}

// Writes all of the bytes to standard output, by as many writes as it takes.
pub(crate) fn write_all(mut output: Stdout, errors: Stderr, bytes: &[u8]) -> Result<(), Failed> {
    let mut rest = bytes;
    for _ in 0..u64::MAX {
        if rest.is_empty() {
            break;
        }
        let error = match output.write(rest) {
            Ok(0) => Error::from(ErrorKind::WriteZero),
            Ok(count) => {
                rest = &rest[count..];
                continue;
            }
            Err(error) => error,
        };
        if !again(&error) {
            return Err(said(errors, "standard output", &error));
        }
    }
    if rest.is_empty() { Ok(()) } else { Err(Failed) }
}
