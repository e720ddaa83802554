//! Replays of scripts with threads: sessions answer the calls, each in a thread of its own, beside the writer.

ghost use Rattle.std.specs.Prelude.{◌≡◌, ◌≤◌, ◌++◌, true, All, IfErr, IfOk, IfSome, OnErr, OnOk, length, map};
ghost use Rattle.std.specs.Io.KnownBytes.{Appends};
ghost use Rattle.camel_script.specs.Line.{line_text};
ghost use Rattle.camel_script.specs.Script.{script};
ghost use Rattle.camel_script_replay.specs.Output.{max_limit, max_records, AppendsPart};
ghost use Rattle.camel_replay_lib.specs.ProgramRun.{max_threads};
ghost use Rattle.camel_replay_lib.specs.ThreadsOutput.{is_threaded_replay_code, IsThreadsOutput, script_calls};
ghost use Rattle.camel_replay_lib.specs.ThreadsOutput.{sessions_text, ThreadsStop, WritesThreadsOutput};
ghost use Rattle.camel_replay_lib.specs.Rounds.{AreNumbered, HasAnswered, HasNoEntries, IsNewWriter, WritesScript};
ghost use Rattle.camel_replay_lib.specs.Rounds.{entries_in, session_in, IsOfStore};

mod open_store;
mod read;
mod round;
mod seat;
mod segment;
mod session_lines;
mod threads_fault;
mod writer;

use crate::threaded_replay::open_store::OpenStore;
use crate::threaded_replay::read::read_script;
use crate::threaded_replay::round::run_round;
use crate::threaded_replay::seat::Seat;
use crate::threaded_replay::segment::cut_segment;
use crate::threaded_replay::session_lines::audit_beside_lines;
use crate::threaded_replay::threads_fault::ThreadsFault;
use crate::threaded_replay::writer::Writer;
use camel_audit::{Gate, Transcript};
use camel_script::{Line, Record, push_line};
use camel_script_replay::{ReplayFault, WRITE_FAULT, WriteFault, write_all};
use camel_table::Seed;
use camel_tbcd::Profile;
use camel_vlr::{Session, Vlr};
use std::alloc::{AllocError, Global};
use std::collections::VecDeque;
use std::io::{Read, Write};
use std::sync::Wait;
use std::thread::Threads;

/// Replays a script with threads. The script is read whole, and its records are cut into segments, behind each
/// publication. In the round of a segment `threads` sessions (1 to [`crate::MAX_THREADS`]) answer its calls, each in a
/// thread of its own, while the writer answers its other records. The calls whose data are not refused are numbered
/// from 0 over the script, and the session `call % threads` answers a call. A session learns the receipt of the last
/// publication before the round, and may see the publication of the round.
///
/// At most `limit` updates (1 to 1000000) are accepted, and calls are decided under the profile. The gate is asked
/// before each call and before each publication.
///
/// Ok: the script has no fault, and its whole output was written, with nothing else: the lines of the records that are
/// no calls, the lines of the calls, session by session, and `audit ok`, since the audit has found that the published
/// updates explain each answer. It is made in parts of the subscribers, by `threads` threads, which then make the
/// lines, and beside them ([`camel_audit::passes_in_part`]); if a part doesn't pass, [`camel_audit::audit`] is its end.
/// After a fault nothing was written, except after [`WRITE_FAULT`] (208):
///
/// | Fault | Its number | What was written |
/// |---|---|---|
/// | `OutOfMemory` (102): reading the script | the record that was being read | nothing |
/// | `Word` (202) to `TooManyRecords` (207): reading the script | the record that was being read | nothing |
/// | `OutOfMemory` (102): out of memory later | none | nothing |
/// | `NoPlace` (103), `NoGuard` (104): a session got no place, or no look | none | nothing |
/// | `Stopped` (105): the gate returned false | none | nothing |
/// | `NoWorker` (106): a worker, or a thread for lines, was not started | none | nothing |
/// | `FrontTooLong` (301) to `BadHistory` (304): the audit | none | nothing |
/// | [`WRITE_FAULT`] (208): a write or the flush | none | a part of the output, from its beginning |
///
/// If a round has more faults than one, the writer's comes first, and then that of the session with the lowest number.
/// The workers are joined before it returns.
///
/// The clauses say so over a reader and a writer whose bytes a contract knows. It takes `Wait`: what they say holds if
/// it returns, and that it returns is not proved.
pub fn replay_threads<I: Read + Drop, O: Write, G: Gate, R: Threads + Wait>(
    rt: &R,
    alloc: Global,
    reader: I,
    writer: &mut O,
    threads: usize,
    limit: u64,
    profile: Profile,
    gate: &G,
) -> Result<(), ReplayFault>
    requires threads { (1 ≤ threads) × (threads ≤ max_threads) }
    requires limit { (1 ≤ limit) × (limit ≤ max_limit) }
    ensures whole { OnOk result (IfSome (I.remaining reader) (λ bytes.
        WritesThreadsOutput (O.contents writer.old) (O.contents writer.new) threads profile limit
        (script bytes max_records))) }
    ensures stopped { IfErr result (λ fault. IfSome (I.remaining reader) (λ bytes.
        ThreadsStop (O.contents writer.old) (O.contents writer.new) threads profile limit
        (script bytes max_records) fault)) }
    ensures codes { IfErr result (λ fault. is_threaded_replay_code fault.code ≡ true) }
{
    let records = read_script(alloc, reader)?;
    let output = match answer_script(rt, alloc, records, threads, limit, profile, gate) {
        Ok(output) => output,
        Err(fault) => return Err(fault_of_run(fault.code())),
    };
    match write_whole(writer, &output) {
        Ok(()) => Ok(()),
        Err(_) => Err(fault_of_run(WRITE_FAULT)),
    }
}

/// A fault that is of no record.
fn fault_of_run(code: u16) -> ReplayFault
    ensures { result ≡ record { number = None; code = code } }
{
    ReplayFault { number: None, code }
}

/// Writes all of the octets, and flushes.
fn write_whole<O: Write>(writer: &mut O, octets: &[u8]) -> Result<(), WriteFault>
    ensures whole { OnOk result (Appends (O.contents writer.old) (O.contents writer.new) octets.now) }
    ensures part { OnErr result (AppendsPart (O.contents writer.old) (O.contents writer.new) octets.now) }
{
    write_all(writer, octets)?;
    match writer.flush() {
        Ok(()) => Ok(()),
        Err(_) => Err(WriteFault),
    }
}

/// The output of a script with these records.
fn answer_script<G: Gate, R: Threads + Wait>(
    rt: &R,
    alloc: Global,
    records: VecDeque<Record>,
    threads: usize,
    limit: u64,
    profile: Profile,
    gate: &G,
) -> Result<Vec<u8>, ThreadsFault>
    requires threads { (1 ≤ threads) × (threads ≤ max_threads) }
    requires limit { (1 ≤ limit) × (limit ≤ max_limit) }
    ensures { IfOk result (λ output. IsThreadsOutput threads profile limit records.items output.items) }
{
    let (vlr, sessions) = Vlr::open_seeded(rt, alloc, threads, limit, profile, Seed::fixed())?;
    let writer = Writer {
        store: OpenStore { vlr, rt },
        accepted: Vec::new(alloc),
        output: Vec::new(alloc),
    };
    let seats = seats_of(alloc, sessions)?;
    let (writer, seats) = run_rounds(rt, alloc, writer, seats, records, gate)?;
    let transcripts = transcripts_of(alloc, seats)?;
    let (published, output) = writer.end();
    let output = audit_beside_lines(rt, alloc, published, transcripts, profile, output)?;
    finish_output(output)
}

/// The output with the line of an audit without a fault at its end.
fn finish_output(output: Vec<u8>) -> Result<Vec<u8>, ThreadsFault>
    ensures { IfOk result (λ text. text.items ≡ output.items ++ line_text Line.AuditOk) }
{
    let mut output = output;
    push_line(&mut output, &Line::AuditOk)?;
    Ok(output)
}

/// The sessions in their order, with the numbers from 0 on.
fn seats_of(alloc: Global, sessions: Vec<Session>) -> Result<VecDeque<Seat>, AllocError>
    ensures sessions { IfOk result (λ seats. map session_in seats.items ≡ sessions.items) }
    ensures numbered { IfOk result (λ seats. AreNumbered 0 seats.items) }
    ensures empty { IfOk result (λ seats. All HasNoEntries seats.items) }
{
    let mut sessions = VecDeque::from(sessions);
    let mut seats = VecDeque::new(alloc);
    'sessions: while let Some(session) = sessions.pop_front() {
        let number = seats.len() as u64;
        seats.push_back(Seat {
            number,
            session,
            entries: Vec::new(alloc),
        })?;
    }
    Ok(seats)
}

/// What the sessions answered.
fn transcripts_of(alloc: Global, seats: VecDeque<Seat>) -> Result<Vec<Transcript>, AllocError>
    ensures { IfOk result (λ transcripts. transcripts.items ≡ map entries_in seats.items) }
{
    let mut seats = seats;
    let mut transcripts = Vec::new(alloc);
    'seats: while let Some(seat) = seats.pop_front() {
        let Seat { entries, .. } = seat;
        transcripts.push(Transcript { entries })?;
    }
    Ok(transcripts)
}

/// Runs a round for each segment.
fn run_rounds<G: Gate, R: Threads + Wait, W: Wait + Drop>(
    rt: &R,
    alloc: Global,
    writer: Writer<W>,
    seats: VecDeque<Seat>,
    records: VecDeque<Record>,
    gate: &G,
) -> Result<(Writer<W>, VecDeque<Seat>), ThreadsFault>
    requires some { 1 ≤ length seats.items }
    requires numbered { AreNumbered 0 seats.items }
    requires empty { All HasNoEntries seats.items }
    requires same_store { All (IsOfStore writer.store.store) seats.items }
    requires new { IsNewWriter writer }
    ensures writer { IfOk result
        (λ done. WritesScript writer.store.store.profile writer.store.store.limit records.items done.0) }
    ensures numbered { IfOk result (λ done. AreNumbered 0 done.1.items) }
    ensures count { IfOk result (λ done. length done.1.items ≡ length seats.items) }
    ensures answered { IfOk result (λ done.
        All (HasAnswered (length seats.items) (script_calls writer.store.store.limit records.items)) done.1.items) }
{
    let mut records = records;
    let mut writer = writer;
    let mut seats = seats;
    let mut first = 0;
    'segments: while !records.is_empty() {
        let segment = cut_segment(alloc, &mut records, first)?;
        first += segment.calls.len() as u64;
        let (after, served) = run_round(rt, alloc, writer, seats, segment, gate);
        writer = after;
        seats = served?;
    }
    Ok((writer, seats))
}
