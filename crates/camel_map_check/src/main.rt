//! Prints the update that each MAP argument of standard input is, as a record of a script (docs/SCRIPT.md), with
//! `--encode` the argument that the encoder makes of that update, or with `--lists` what came beside it. With
//! `--restore` the input is the dump of a store, of which it prints a script that makes the same records. With
//! `--version` it prints its version, and reads nothing.
//!
//! An input line is `OPERATION,IMSI,HEX`: the operation by its name in TS 29.002, the IMSI of the dialogue or nothing,
//! and the octets of the argument in hexadecimal. Behind them the arguments of further operations of the dialogue may
//! stand, `,HEX` each, which are joined. Its output line is a record, or with `--encode` such a line without an IMSI,
//! or with `--lists` the numbers of items of each CSI and of its criteria, the O-CSI first, and the
//! camelCapabilityHandling of each CSI, `-` if it is not there. If an argument is not taken it is `fault NUMBER PLACE`,
//! and `fault NUMBER` if two are not joined. An empty line is skipped, and not counted.
//!
//! A line of a dump is `IMSI,HEX`: the digits of a subscriber's IMSI, and the octets of the argument of the Insert that
//! makes the record over a Register, as `camel_map::encode_record` writes them. Both are printed, the Register first; a
//! replay says what a store refuses of them. A line that gives no Insert is left out, and said on standard error:
//! `line NUMBER is no IMSI,HEX`, or `line NUMBER: fault NUMBER PLACE` if the argument is not taken in a dialogue of
//! that IMSI. The lines behind it are printed too, and the status is 2.
//!
//! Decoding, joining and encoding are those of `camel_map`, whose contracts say which octets are which update. The
//! texts here are tested, and not proved.
#![tactic(auto)]

mod encoded;
mod fault;
mod input;
mod lists;
mod script;

use crate::encoded::append_argument;
use crate::fault::{ArgumentFault, append_fault};
use crate::input::{Argument, LineFault, argument_of};
use crate::lists::append_lists;
use crate::script::{append_record, restore_line};
use camel_map::{Arrival, MapFault, decode};
use csv::{ByteRecord, ErrorKind, Reader, ReaderBuilder};
use std::alloc::Global;
use std::io::{Read, Write};
use std::process::ExitCode;
use std::{env, io};

/// Why the program stops before the end of its input.
#[derive(Clone, Copy)]
enum Stop {
    /// The line of this number, from 1, is no `OPERATION,IMSI,HEX`.
    Line(u64),
    Memory,
    Read,
    Write,
}

/// The newest version of CHANGELOG.md, which `--version` prints.
const VERSION: &str = "0.7.0";

/// The status if a line is no `OPERATION,IMSI,HEX`, or if one of a dump gives no Insert.
const LINE_STATUS: u8 = 2;

/// The status if memory, the input or the output fails.
const FAULT_STATUS: u8 = 1;

/// How many octets of output are kept before they are written.
const KEPT_OUTPUT: usize = 65536;

/// What is printed of the input.
#[derive(Clone, Copy, PartialEq, Eq)]
enum Mode {
    /// Of arguments, an answer to each.
    Answers(Answer),
    /// Of a dump, a script that makes its records.
    Script,
}

/// What is printed of an argument.
#[derive(Clone, Copy, PartialEq, Eq)]
enum Answer {
    /// The record of its update.
    Record,
    /// What the encoder makes of its update.
    Argument,
    /// How many items came in its lists, and its camelCapabilityHandling.
    Lists,
}

fn main(rt: HostRuntime) -> ExitCode {
    let answered = match asked(&rt) {
        Ok(Some(mode)) => answer_all(
            rt.alloc(),
            mode,
            rt.stdin(),
            &mut rt.stdout(),
            &mut rt.stderr(),
        ),
        Ok(None) => print_version(&rt),
        Err(_) => Err(Stop::Memory),
    };
    match answered {
        Ok(true) => ExitCode::SUCCESS,
        Ok(false) => ExitCode::from(LINE_STATUS),
        Err(stop) => report(&rt, stop),
    }
}

/// What the words of the command line ask to print of the input; None if they ask for the version.
fn asked(rt: &HostRuntime) -> io::Result<Option<Mode>> {
    let words = env::args(rt)?.collect::<Vec<String>>(rt.alloc())?;
    Ok(match words.get(1) {
        Some(word) if word.as_str() == "--version" => None,
        Some(word) if word.as_str() == "--encode" => Some(Mode::Answers(Answer::Argument)),
        Some(word) if word.as_str() == "--lists" => Some(Mode::Answers(Answer::Lists)),
        Some(word) if word.as_str() == "--restore" => Some(Mode::Script),
        _ => Some(Mode::Answers(Answer::Record)),
    })
}

/// Prints the name of the program and its version.
fn print_version(rt: &HostRuntime) -> Result<bool, Stop> {
    match println!(rt; "camel_map_check {VERSION}") {
        Ok(()) => Ok(true),
        Err(_) => Err(Stop::Write),
    }
}

/// Says on standard error why the program stops, and gives its status.
fn report(rt: &HostRuntime, stop: Stop) -> ExitCode {
    let (said, status) = match stop {
        Stop::Line(line) => (
            eprintln!(rt; "camel_map_check: line {line} is no OPERATION,IMSI,HEX"),
            LINE_STATUS,
        ),
        Stop::Memory => (
            eprintln!(rt; "camel_map_check: out of memory"),
            FAULT_STATUS,
        ),
        Stop::Read => (
            eprintln!(rt; "camel_map_check: standard input cannot be read"),
            FAULT_STATUS,
        ),
        Stop::Write => (
            eprintln!(rt; "camel_map_check: standard output cannot be written"),
            FAULT_STATUS,
        ),
    };
    // There is nowhere else to say it.
    let _ = said;
    ExitCode::from(status)
}

/// Answers each line, and writes the answers also of the lines before the one at which it stops. Returns false if lines
/// of a dump are left out, which are told.
fn answer_all<R: Read + Drop, W: Write, E: Write>(
    alloc: Global,
    mode: Mode,
    input: R,
    output: &mut W,
    told: &mut E,
) -> Result<bool, Stop> {
    // In a dump a quote is no digit, and takes no line behind it along.
    let mut reader = ReaderBuilder::new()
        .has_headers(false)
        .flexible(true)
        .quoting(mode != Mode::Script)
        .from_reader(alloc, input);
    let mut answers = Vec::new(alloc);
    let ended = answer_lines(alloc, mode, &mut reader, &mut answers, output, told);
    write_answers(&mut answers, output)?;
    ended
}

/// Answers each line. Some answers may not be written yet. Returns false if lines of a dump are left out.
fn answer_lines<R: Read, W: Write, E: Write>(
    alloc: Global,
    mode: Mode,
    reader: &mut Reader<R>,
    answers: &mut Vec<u8>,
    output: &mut W,
    told: &mut E,
) -> Result<bool, Stop> {
    let mut fields = ByteRecord::new(alloc);
    let mut is_whole = true;
    for number in 1..u64::MAX {
        if !read_fields(reader, &mut fields)? {
            break;
        }
        match mode {
            Mode::Answers(answer) => answer_line(alloc, answer, number, &fields, answers)?,
            Mode::Script => match restore_line(alloc, number, &fields, answers, told) {
                Ok(is_restored) => is_whole = is_whole && is_restored,
                Err(_) => return Err(Stop::Memory),
            },
        }
        if answers.len() >= KEPT_OUTPUT {
            write_answers(answers, output)?;
        }
    }
    Ok(is_whole)
}

/// Appends the line that answers the line of this number.
fn answer_line(
    alloc: Global,
    answer: Answer,
    number: u64,
    fields: &ByteRecord,
    answers: &mut Vec<u8>,
) -> Result<(), Stop> {
    match argument_of(alloc, fields) {
        Ok(argument) => append_answer(alloc, answer, answers, &argument),
        Err(LineFault::Memory) => Err(Stop::Memory),
        Err(LineFault::Form) => Err(Stop::Line(number)),
    }
}

/// Reads the fields of the next line, if there is one.
fn read_fields<R: Read>(reader: &mut Reader<R>, fields: &mut ByteRecord) -> Result<bool, Stop> {
    match reader.read_byte_record(fields) {
        Ok(found) => Ok(found),
        Err(error) => Err(match error.kind() {
            ErrorKind::OutOfMemory => Stop::Memory,
            _ => Stop::Read,
        }),
    }
}

/// Appends the line that answers an argument.
fn append_answer(
    alloc: Global,
    answer: Answer,
    out: &mut Vec<u8>,
    argument: &Argument,
) -> Result<(), Stop> {
    let appended = match arrival_of(alloc, argument) {
        Ok(arrival) => match answer {
            Answer::Record => append_record(out, &arrival.update),
            Answer::Argument => append_argument(alloc, out, &arrival.update),
            Answer::Lists => append_lists(out, &arrival),
        },
        Err(fault) => append_fault(out, fault),
    };
    match appended {
        Ok(()) => Ok(()),
        Err(_) => Err(Stop::Memory),
    }
}

/// What the arguments of a line bring, each joined with those before it.
fn arrival_of(alloc: Global, argument: &Argument) -> Result<Arrival, ArgumentFault> {
    let mut arrival = decode_one(alloc, argument, &argument.octets)?;
    for octets in argument.more.iter() {
        let next = decode_one(alloc, argument, octets)?;
        arrival = arrival.join(alloc, &next)?;
    }
    Ok(arrival)
}

/// What one of the arguments of a line brings.
fn decode_one(alloc: Global, argument: &Argument, octets: &[u8]) -> Result<Arrival, MapFault> {
    decode(alloc, argument.operation, argument.imsi, octets)
}

/// Writes the answers, of which none is kept then.
fn write_answers<W: Write>(answers: &mut Vec<u8>, output: &mut W) -> Result<(), Stop> {
    let written = output.write_all(answers.as_slice());
    answers.clear();
    match written {
        Ok(()) => Ok(()),
        Err(_) => Err(Stop::Write),
    }
}
