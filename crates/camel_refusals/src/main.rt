//! Makes each call of the libraries in a run in which memory is refused. A test in `tests/refused` starts it with the
//! name of a call, refuses one request for memory in each run, and compares what the runs print. Without a name it
//! lists the calls.
//!
//! Each run sets a stage, makes its call there, and prints what is present in the end. A step that was refused memory
//! is checked to leave all as it was, and is made again. Which step that was, and its answer, comes on standard error.
#![tactic(auto)]

mod attempts;
mod calls;
mod failure;
mod openings;
mod publications;
mod sessions;
mod stage;
mod stage_calls;
mod values;
mod workers;

use crate::attempts::{Refusals, again};
use crate::calls::{CALLS, Call, make};
use crate::failure::{Failure, Lost};
use std::io;
use std::process::ExitCode;
use std::random::RandomSource;
use std::sync::Wait;

fn main(rt: HostRuntime) -> ExitCode {
    let mut refusals = Refusals::none();
    let ended = match again(&mut refusals.stage, || word(&rt)) {
        Ok(word) => run(&rt, word, &mut refusals),
        Err(failure) => Err(failure),
    };
    let told = tell(&rt, &refusals);
    match (ended, told) {
        (Ok(()), Ok(())) => ExitCode::SUCCESS,
        (Ok(()), Err(_)) => ExitCode::FAILURE,
        (Err(failure), _) => {
            let _ = eprintln!(rt; "camel_refusals: {failure}");
            ExitCode::FAILURE
        }
    }
}

// The word after the program's name.
fn word(rt: &HostRuntime) -> Result<Option<String>, Failure> {
    let mut words = std::env::args(rt)?;
    words.next();
    Ok(words.next())
}

// Makes the call that the word names, or lists the calls.
fn run<R: AllocGlobal + Print + RandomSource + Wait>(
    rt: &R,
    word: Option<String>,
    refusals: &mut Refusals,
) -> Result<(), Failure> {
    match word {
        None => list(rt),
        Some(name) => {
            let call = Call::named(&name).ok_or(Failure::Lost(Lost::Name))?;
            make(rt, call, refusals)
        }
    }
}

// A line for each call: whether it takes memory, and its name.
fn list(rt: &impl Print) -> Result<(), Failure> {
    for (_, takes, name) in &CALLS {
        let word = if *takes { "memory" } else { "none" };
        println!(rt; "{word} {name}")?;
    }
    Ok(())
}

// A line for each step that was refused memory, with its number.
fn tell(rt: &impl Eprint, refusals: &Refusals) -> io::Result<()> {
    for (step, refused) in refusals.steps() {
        if refused.count > 0 {
            eprintln!(rt; "{step} {} {}", refused.count, refused.code)?;
        }
    }
    Ok(())
}
