//! Replays a script of subscriber data updates and calls, from standard input to standard output.
#![tactic(auto)]

use camel_replay_lib::{FAULT_STATUS, REJECTED_STATUS, run, write_all};
use std::io;
use std::io::ErrorKind;
use std::process::ExitCode;

fn main(rt: HostRuntime) -> ExitCode {
    let status = match words(&rt) {
        Ok(words) => run(
            &rt,
            rt.alloc(),
            &words,
            rt.stdin(),
            &mut rt.stdout(),
            &mut rt.stderr(),
        ),
        Err(error) => {
            let (text, status) = match error.kind() {
                ErrorKind::OutOfMemory => ("camel_replay: fault 102\n", FAULT_STATUS),
                _ => ("error: an argument is not UTF-8\n", REJECTED_STATUS),
            };
            let _ = write_all(&mut rt.stderr(), text.as_bytes());
            status
        }
    };
    ExitCode::from(status)
}

// The words with which the program was started, its name first.
fn words(rt: &HostRuntime) -> io::Result<Vec<String>> {
    Ok(std::env::args(rt)?.collect(rt.alloc())?)
}
