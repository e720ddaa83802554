//! The command `camel_replay`: its options, its run over a script, and the status that it ends with.

ghost use Rattle.std.specs.Prelude.{◌≡◌, ◌≤◌, ◌⊎◌, true, None, Some, IfErr, IfOk, IfSome, OnOk, map, string_bytes};
ghost use Rattle.clap.specs.Words.{kind_of};
ghost use Rattle.clap.specs.declared.error.kind.ErrorKind.TheVariants.{DisplayHelp, DisplayVersion, OutOfMemory};
ghost use Rattle.camel_replay_lib.specs.ProgramRun.{fault_line, fault_line_at, max_threads, Helps, LacksMemory};
ghost use Rattle.camel_replay_lib.specs.ProgramRun.{Rejects, Replays, RunData, Runs, promise_of};
ghost use Rattle.camel_script.specs.Script.{script};
ghost use Rattle.camel_script_replay.specs.Output.{max_limit, max_records, AppendsPart};

pub(crate) mod words;

use crate::command::words::options;
use crate::threaded_replay::replay_threads;
use camel_audit::OpenGate;
use camel_script_replay::{ReplayFault, replay, write_all};
use camel_tbcd::Profile;
use clap::error::ErrorKind;
use std::alloc::{AllocError, Global};
use std::io::{Read, Write};
use std::sync::Wait;
use std::thread::Threads;

/// What the command line asks for.
#[derive(Clone, Copy, Debug, PartialEq, Eq)]
pub struct Options {
    /// How many threads answer calls, 1 to 16; `None` if the replay has only one thread.
    pub threads: Option<usize>,
    /// How many updates are accepted at most, 1 to 1000000.
    pub limit: u64,
    /// The profile under which calls are decided.
    pub profile: Profile,
}

/// The status of a run that ended with a fault.
pub const FAULT_STATUS: u8 = 1;

/// The status of a run whose command line was rejected.
pub const REJECTED_STATUS: u8 = 2;

/// Runs the program that was started with these words, its name first: replays the script that the reader gives, and
/// writes its output to `out`. Returns the status of the process.
///
/// | Status | The run | `out` | `err` |
/// |---|---|---|---|
/// | 0 | no fault | the script's output | nothing |
/// | 0 | `--help` | the help text | nothing |
/// | 0 | `--version` | `camel_replay`, and the version | nothing |
/// | 1 | a fault | what [`replay`] or [`replay_threads`] says of it | the fault's line, or a part of it |
/// | 1 | out of memory before the script was read | nothing | the line of `OutOfMemory` (102), or a part of it |
/// | 2 | the command line was rejected | nothing | the text of `clap` |
///
/// A failed write to `err`, or of such a text to `out`, is ignored. What is said of the output holds over a reader
/// and a writer whose bytes a contract knows.
///
/// It takes `Wait`, with and without `--threads`: what is said holds if it returns, and that it returns is not proved.
pub fn run<R: Threads + Wait, I: Read + Drop, W: Write, E: Write>(
    rt: &R,
    alloc: Global,
    words: &[String],
    reader: I,
    out: &mut W,
    err: &mut E,
) -> u8
    ensures { Runs (map string_bytes words.now) (record {
      input = I.remaining reader;
      out = record { before = W.contents out.old; after = W.contents out.new };
      err = record { before = E.contents err.old; after = E.contents err.new };
      status = result;
    }) }
{
    match options(alloc, words) {
        Ok(options) => run_replay(rt, alloc, options, reader, out, err),
        Err(error) => report(alloc, &error, out, err),
    }
}

/// Replays the script, and reports its fault, if there is one.
fn run_replay<R: Threads + Wait, I: Read + Drop, W: Write, E: Write>(
    rt: &R,
    alloc: Global,
    options: Options,
    reader: I,
    out: &mut W,
    err: &mut E,
) -> u8
    requires threads { IfSome options.threads (λ threads. (1 ≤ threads) × (threads ≤ max_threads)) }
    requires limit { (1 ≤ options.limit) × (options.limit ≤ max_limit) }
    ensures { Replays (promise_of options.threads options.profile options.limit) (record {
      input = I.remaining reader;
      out = record { before = W.contents out.old; after = W.contents out.new };
      err = record { before = E.contents err.old; after = E.contents err.new };
      status = result;
    }) }
{
    match replay_as(rt, alloc, options, reader, out) {
        Ok(()) => 0,
        Err(fault) => {
            write_fault_line(alloc, err, &fault);
            FAULT_STATUS
        }
    }
}

/// Replays the script with the threads that the options ask for, or on one thread only.
fn replay_as<R: Threads + Wait, I: Read + Drop, W: Write>(
    rt: &R,
    alloc: Global,
    options: Options,
    reader: I,
    out: &mut W,
) -> Result<(), ReplayFault>
    requires threads { IfSome options.threads (λ threads. (1 ≤ threads) × (threads ≤ max_threads)) }
    requires limit { (1 ≤ options.limit) × (options.limit ≤ max_limit) }
    ensures whole { OnOk result (IfSome (I.remaining reader) (λ bytes.
        (promise_of options.threads options.profile options.limit).whole (W.contents out.old) (W.contents out.new)
        (script bytes max_records))) }
    ensures stopped { IfErr result (λ fault. IfSome (I.remaining reader) (λ bytes.
        (promise_of options.threads options.profile options.limit).stop (W.contents out.old) (W.contents out.new)
        (script bytes max_records) fault)) }
    ensures codes { IfErr result
        (λ fault. (promise_of options.threads options.profile options.limit).codes fault.code ≡ true) }
{
    match options.threads {
        None => replay(alloc, reader, out, options.limit, options.profile),
        Some(threads) => replay_threads(
            rt,
            alloc,
            reader,
            out,
            threads,
            options.limit,
            options.profile,
            &OpenGate,
        ),
    }
}

/// Reports why the command line gave no options, and returns the status.
fn report<W: Write, E: Write>(alloc: Global, error: &clap::Error, out: &mut W, err: &mut E) -> u8
    ensures { let run : RunData = record {
      input = None;
      out = record { before = W.contents out.old; after = W.contents out.new };
      err = record { before = E.contents err.old; after = E.contents err.new };
      status = result;
    } in
        Rejects run
        ⊎ (((kind_of error.now ≡ DisplayHelp) × Helps run) ⊎ (((kind_of error.now ≡ DisplayVersion) × Helps run)
        ⊎ ((kind_of error.now ≡ OutOfMemory) × LacksMemory run))) }
{
    match error.kind() {
        ErrorKind::DisplayHelp | ErrorKind::DisplayVersion => {
            write_text(alloc, out, error);
            0
        }
        ErrorKind::OutOfMemory => {
            write_fault_line(alloc, err, &OUT_OF_MEMORY);
            FAULT_STATUS
        }
        _ => {
            write_text(alloc, err, error);
            REJECTED_STATUS
        }
    }
}

/// Writes the text of `clap`, or a part of it if memory or the writer refuses the rest.
fn write_text<W: Write>(alloc: Global, writer: &mut W, error: &clap::Error) {
    if let Ok(text) = format!(in alloc; "{error}") {
        let _ = write_all(writer, text.as_bytes());
    }
}

/// The fault of a run to which memory was refused before the script was read: `OutOfMemory` (102).
const OUT_OF_MEMORY: ReplayFault = ReplayFault {
    number: None,
    code: 102,
};

/// Writes the line of a fault, or a part of it if memory or the writer refuses the rest.
fn write_fault_line<E: Write>(alloc: Global, err: &mut E, fault: &ReplayFault)
    ensures { AppendsPart (E.contents err.old) (E.contents err.new) (fault_line fault.now) }
{
    if let Ok(text) = fault_line(alloc, fault) {
        let _ = write_all(err, text.as_bytes());
    }
}

/// The line of a fault, with the number of its record if there is one.
fn fault_line(alloc: Global, fault: &ReplayFault) -> Result<String, AllocError>
    ensures { IfOk result (λ text. string_bytes text ≡ fault_line fault.now) }
{
    match fault.number {
        Some(number) => fault_line_with_record(alloc, number, fault.code),
        None => fault_line_alone(alloc, fault.code),
    }
}

fn fault_line_with_record(alloc: Global, number: u64, code: u16) -> Result<String, AllocError>
    ensures { IfOk result (λ text. string_bytes text ≡ fault_line_at (Some number) code) }
{
    format!(in alloc; "camel_replay: record {number}: fault {code}\n")
}

fn fault_line_alone(alloc: Global, code: u16) -> Result<String, AllocError>
    ensures { IfOk result (λ text. string_bytes text ≡ fault_line_at None code) }
{
    format!(in alloc; "camel_replay: fault {code}\n")
}
