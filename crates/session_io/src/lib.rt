#![tactic(auto)]

// Standard input answered on standard output, in large pieces. Memory is what `run` holds from its start: the session, and a buffer each way.
ghost use Rattle.std.specs.Prelude.{◌≤◌, length, IfOk};
ghost use Rattle.session_lines.specs.Stream.{longest_answer, WentThrough};

use frames::Answers;
use session_lines::Session;
use std::io::{Stderr, Stdin, Stdout};

mod waiting;

pub use waiting::Failed;

// The streams of the process.
// The handles of std have no comparison and no printing, so neither has this.
#[derive(Clone, Copy)]
pub struct Streams {
    pub input: Stdin,
    pub output: Stdout,
    pub errors: Stderr,
}

// The bytes of a buffer each way: a session would spend its time on calls with a small one.
const BUFFER: usize = 65536;

// Answers a piece, every byte of it once and in order, and writes as often as the buffer is full. A write that fails ends the session: what was
// written before stays.
fn answer_piece(
    streams: Streams,
    session: &mut Session,
    piece: &[u8],
    out: &mut [u8; BUFFER],
) -> Result<(), Failed>
    ensures { IfOk result (λ _. WentThrough session.old session.new piece.now) }
{
    let mut rest = piece;
    // A `while`, with no index: it ends where the piece does, and how far one turn comes only `feed` says.
    while !rest.is_empty() {
        let mut answers = Answers::new(out);
        let used = session.feed(rest, &mut answers);
        waiting::write_all(streams.output, streams.errors, answers.written())?;
        rest = &rest[used..];
    }
    Ok(())
}

// Reads to the end of the input, and holds a last line without its newline. A read of nothing is the end. No run comes to the end of the count of turns.
fn read_all(
    streams: Streams,
    session: &mut Session,
    buf: &mut [u8],
    out: &mut [u8; BUFFER],
) -> Result<(), Failed> {
    for _ in 0..u64::MAX {
        let count = waiting::read_some(streams.input, streams.errors, buf)?;
        if count == 0 {
            return Ok(());
        }
        answer_piece(streams, session, &buf[..count], out)?;
    }
    Err(Failed)
}

// Reads and answers all, then a last line without its newline. Where a read failed the line that had begun is not answered: what it would have been is
// not known.
fn serve(
    streams: Streams,
    session: &mut Session,
    buf: &mut [u8],
    out: &mut [u8; BUFFER],
) -> Result<(), Failed> {
    read_all(streams, session, buf, out)?;
    let mut answers = Answers::new(out);
    session.end(&mut answers);
    waiting::write_all(streams.output, streams.errors, answers.written())
}

// A whole session: an empty book, all-zero tables, and every line of standard input answered. `Ok` where all of it was read and every answer written.
pub fn run(streams: Streams) -> Result<(), Failed> {
    let mut session = Session::new();
    let mut buf = [0u8; BUFFER];
    let mut out = [0u8; BUFFER];
    serve(streams, &mut session, &mut buf, &mut out)
}
