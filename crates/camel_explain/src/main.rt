//! Explains a script of subscriber data updates and calls, record by record, for people (docs/SCRIPT.md). Its answers
//! are those of `camel_replay`: both read a record by `parse_fields`, answer it by the same `Store`, and print the
//! answer by `push_line`. What it says beside the answers is tested, and not proved.
#![tactic(auto)]

mod colours;
mod counts;
mod criteria;
mod csi;
mod explainer;
mod listing;
mod mistakes;
mod notes;
mod options;
mod progress;
mod prompt;
mod reasons;
mod refusals;
mod session;
mod session_word;
mod shown;
mod stop;
mod stored;

use crate::options::{Options, command, options_of};
use crate::session::explain;
use crate::shown::Shown;
use crate::stop::Stop;
use clap::Error;
use std::fs::File;
use std::io;
use std::process::ExitCode;

/// The status if the command line is rejected, or names a file that can't be opened.
const REJECTED_STATUS: u8 = 2;

/// The status if a record has a fault, or if memory, the input or the output fails.
const FAULT_STATUS: u8 = 1;

fn main(rt: HostRuntime) -> ExitCode {
    let words = match words(&rt) {
        Ok(words) => words,
        Err(_) => {
            let _ = eprintln!(rt; "error: an argument is not UTF-8, or memory is refused");
            return ExitCode::from(REJECTED_STATUS);
        }
    };
    match run(&rt, &words) {
        Ok(status) => ExitCode::from(status),
        Err(error) => {
            // There is nowhere else to say it.
            let _ = print_text(&rt, &error);
            ExitCode::from(error.exit_code() as u8)
        }
    }
}

// The words with which the program was started, its name first.
fn words(rt: &HostRuntime) -> io::Result<Vec<String>> {
    Ok(std::env::args(rt)?.collect(rt.alloc())?)
}

// Prints the text of `clap`, which has words of the command line, to where it says.
fn print_text(rt: &HostRuntime, error: &Error) -> io::Result<()> {
    let Ok(text) = format!(in rt.alloc(); "{error}") else {
        return error.print(rt);
    };
    for line in text.lines() {
        let line = Shown(line.as_bytes());
        if error.use_stderr() {
            eprintln!(rt; "{line}")?;
        } else {
            println!(rt; "{line}")?;
        }
    }
    Ok(())
}

// Explains what the command line names, and gives the status.
fn run(rt: &HostRuntime, words: &[String]) -> Result<u8, Error> {
    let matches = command(rt.alloc())?.try_get_matches_from(words)?;
    let Some(options) = options_of(&matches) else {
        return Ok(REJECTED_STATUS);
    };
    let explained = match options.file {
        None => explain(rt, &options, rt.stdin()),
        Some(path) => match File::open(rt, path) {
            Ok(file) => explain(rt, &options, file),
            Err(error) => {
                let path = Shown(path.as_bytes());
                let _ = eprintln!(rt; "camel_explain: {path} can't be opened: {error}");
                return Ok(REJECTED_STATUS);
            }
        },
    };
    Ok(match explained {
        Ok(true) => FAULT_STATUS,
        Ok(false) => 0,
        Err(stop) => {
            report(rt, stop);
            FAULT_STATUS
        }
    })
}

// Says why the program stops before the end of the script.
fn report(rt: &HostRuntime, stop: Stop) {
    let (code, text) = match stop {
        Stop::Memory => (102, "memory is refused"),
        Stop::Read => (206, "the input can't be read"),
        Stop::TooManyRecords => (207, "there are more than 1000000 records"),
        Stop::Write => (208, "the output can't be written"),
    };
    // There is nowhere else to say it.
    let _ = eprintln!(rt; "camel_explain: fault {code}: {text}");
}
