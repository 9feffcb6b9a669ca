#![tactic(auto)]

// The session program: answers the session lines on standard input, on standard output. The case is document 01's own session.
//
// Its exit status is 0 where all was read and every answer written, and 1 where a read or a write failed, which standard error says.
use session_io::Streams;
use std::process::ExitCode;

fn main(rt: HostRuntime) -> ExitCode {
    let streams = Streams {
        input: rt.stdin(),
        output: rt.stdout(),
        errors: rt.stderr(),
    };
    match session_io::run(streams) {
        Ok(()) => ExitCode::SUCCESS,
        Err(_) => ExitCode::FAILURE,
    }
}
