//! A round of a replay with threads: a worker for each session answers the calls of a segment while the writer answers
//! its other records.

ghost use Rattle.std.specs.Prelude.{◌≡◌, ◌≤◌, true, None, Some, Err, length, All, IfErr, IfOk, IfSome, OnOk, []};
ghost use Rattle.std.specs.List.{AllZip};
ghost use Rattle.camel_replay_lib.specs.ThreadsOutput.{fault_of_end, is_no_call};
ghost use Rattle.camel_replay_lib.specs.Rounds.{AreWorkersOf, FrontIsAtMost, IsJoined, IsOfStore, IsPromiseOf};
ghost use Rattle.camel_replay_lib.specs.Rounds.{IsWorkerOf, ServesRound, WritesLines};
ghost use Rattle.camel_audit.specs.Serves.{Serves};

use crate::threaded_replay::seat::Seat;
use crate::threaded_replay::segment::{Segment, jobs_for};
use crate::threaded_replay::threads_fault::ThreadsFault;
use crate::threaded_replay::writer::Writer;
use camel_audit::{AuditFault, Ended, Entry, Gate, Job, Served, Transcript, serve};
use camel_vlr::{Of, Receipt, Session, StoreName};
use std::alloc::{AllocError, Global};
use std::collections::VecDeque;
use std::marker::Brand;
use std::snapshot::Snapshot;
use std::sync::Wait;
use std::thread;
use std::thread::{Promise, PromisedHandle, Scope, Threads};

/// The promise of a worker's thread: it gives back what `serve` makes of this session, this receipt and these jobs.
#[derive(Drop)]
struct ServedOf {
    session: Snapshot<Session>,
    told: Snapshot<Receipt>,
    jobs: Snapshot<Vec<Job>>,
}

impl Promise<Served> for ServedOf {
    ghost kept_by = { λ p served. Serves p.session.value p.told.value p.jobs.value.items served };
}

/// A session in a round: what it has answered before, and its worker, if one was started.
#[derive(Drop)]
struct Worker {
    number: u64,
    entries: Vec<Entry>,
    started: Option<PromisedHandle<Served, ServedOf>>,
}

/// Answers the calls of a segment, each by the worker of its session, while the writer answers the other records. Each
/// worker has ended when it returns. The writer comes back with the store.
///
/// The writer's own fault comes first, and then that of the session with the lowest number.
pub(crate) fn run_round<G: Gate, R: Threads + Wait, W: Wait + Drop>(
    rt: &R,
    alloc: Global,
    writer: Writer<W>,
    seats: VecDeque<Seat>,
    segment: Segment,
    gate: &G,
) -> (Writer<W>, Result<VecDeque<Seat>, ThreadsFault>)
    requires some { 1 ≤ length seats.items }
    requires same_store { All (IsOfStore writer.store.store) seats.items }
    requires no_calls { All (λ asked. is_no_call asked ≡ true) segment.others.items }
    ensures output { OnOk result.1 (WritesLines segment.others.items writer result.0) }
    ensures store { result.0.store.store ≡ writer.store.store }
    ensures seats { IfOk result.1
        (λ after. ServesRound writer.store.updates result.0.store.updates segment.calls.items seats.items after.items) }
{
    thread::scope(
        thread::scope_env(),
        rt,
        |scope| -> (Writer<W>, Result<VecDeque<Seat>, ThreadsFault>)
            requires { (1 ≤ length seats.items) × All (IsOfStore writer.store.store) seats.items
                × All (λ asked. is_no_call asked ≡ true) segment.others.items }
            ensures output { OnOk result.1 (WritesLines segment.others.items writer result.0) }
            ensures store { result.0.store.store ≡ writer.store.store }
            ensures seats { IfOk result.1
                (λ after. ServesRound writer.store.updates result.0.store.updates segment.calls.items seats.items
                after.items) }
        {
            let mut writer = writer;
            let served = serve_beside(rt, scope, alloc, &mut writer, seats, segment, gate);
            (writer, served)
        },
    )
}

/// Starts the workers, lets the writer answer its records, and joins the workers.
fn serve_beside<'s, E, G: Gate, R: Threads + Wait, W: Wait + Drop>(
    rt: &R,
    scope: &Scope<'s, E>,
    alloc: Global,
    writer: &mut Writer<W>,
    seats: VecDeque<Seat>,
    segment: Segment,
    gate: &'s G,
) -> Result<VecDeque<Seat>, ThreadsFault>
    requires some { 1 ≤ length seats.items }
    requires same_store { All (IsOfStore writer.old.store.store) seats.items }
    requires no_calls { All (λ asked. is_no_call asked ≡ true) segment.others.items }
    ensures output { OnOk result (WritesLines segment.others.items writer.old writer.new) }
    ensures store { writer.new.store.store ≡ writer.old.store.store }
    ensures seats { IfOk result
        (λ after. ServesRound writer.old.store.updates writer.new.store.updates segment.calls.items seats.items
        after.items) }
{
    let Segment { calls, others } = segment;
    let workers = start_all(scope, alloc, writer, seats, &calls, gate)?;
    writer.answer_all(rt, others, gate)?;
    join_all(rt, alloc, workers, writer.front())
}

/// Starts a worker for each session, with those of the calls that it answers.
fn start_all<'s, E, G: Gate, W: Wait + Drop>(
    scope: &Scope<'s, E>,
    alloc: Global,
    writer: &Writer<W>,
    seats: VecDeque<Seat>,
    calls: &[Job],
    gate: &'s G,
) -> Result<VecDeque<Worker>, AllocError>
    requires some { 1 ≤ length seats.items }
    requires same_store { All (IsOfStore writer.now.store.store) seats.items }
    ensures { IfOk result (λ workers. AreWorkersOf writer.now.store
        (length seats.items) calls.now seats.items workers.items) }
{
    let threads = seats.len() as u64;
    let mut seats = seats;
    let mut workers = VecDeque::new(alloc);
    'seats: while let Some(seat) = seats.pop_front() {
        let jobs = jobs_for(alloc, calls, threads, seat.number)?;
        let worker = start(scope, alloc, seat, writer.receipt(), jobs, gate);
        workers.push_back(worker)?;
    }
    Ok(workers)
}

/// Starts a worker for a session.
fn start<'s, E, G: Gate>(
    scope: &Scope<'s, E>,
    alloc: Global,
    seat: Seat,
    told: Receipt,
    jobs: Vec<Job>,
    gate: &'s G,
) -> Worker
    requires { told.store ≡ seat.session.store }
    ensures { IsWorkerOf told jobs.items seat result }
{
    let Seat {
        number,
        session,
        entries,
    } = seat;
    let started = spawn_worker::<Brand, E, G>(scope, alloc, session, told, jobs, gate);
    Worker {
        number,
        entries,
        started,
    }
}

/// Starts the thread of a worker, whose session and receipt are of the store `S`. None if no thread is started.
fn spawn_worker<'s, S: StoreName + 's, E, G: Gate>(
    scope: &Scope<'s, E>,
    alloc: Global,
    session: Session,
    told: Receipt,
    jobs: Vec<Job>,
    gate: &'s G,
) -> Option<PromisedHandle<Served, ServedOf>>
    requires session { S.store ≡ Some session.store }
    requires told { S.store ≡ Some told.store }
    ensures { IfSome result (λ handle. IsPromiseOf session told jobs.items handle.promise) }
{
    let promise = ServedOf {
        session: Snapshot::of(&session),
        told: Snapshot::of(&told),
        jobs: Snapshot::of(&jobs),
    };
    let session = Of::<S, Session>::new(session);
    let told = Of::<S, Receipt>::new(told);
    match scope.spawn_with(promise, move || serve_of(alloc, session, told, jobs, gate)) {
        Ok(handle) => Some(handle),
        Err(_) => None,
    }
}

/// What a worker's thread does.
fn serve_of<S: StoreName, G: Gate>(
    alloc: Global,
    session: Of<S, Session>,
    told: Of<S, Receipt>,
    jobs: Vec<Job>,
    gate: &G,
) -> Served
    ensures { Serves session.value told.value jobs.items result }
{
    serve(alloc, session.value, told.value, jobs, gate)
}

/// Joins the workers, and returns their sessions with all that they answered. `front` is how many updates are
/// published.
///
/// It fails with the fault of the first worker that has one. The scope joins those behind it.
fn join_all<R: Threads>(
    rt: &R,
    alloc: Global,
    workers: VecDeque<Worker>,
    front: u64,
) -> Result<VecDeque<Seat>, ThreadsFault>
    ensures { IfOk result (λ seats. AllZip (IsJoined front) workers.items seats.items) }
{
    let mut workers = workers;
    let mut seats = VecDeque::new(alloc);
    'workers: while let Some(worker) = workers.pop_front() {
        let seat = join(rt, worker, front)?;
        let Ok(()) = seats.push_back(seat) else {
            return Err(ThreadsFault::OutOfMemory);
        };
    }
    Ok(seats)
}

/// Joins a worker, and returns its session with all that it answered.
fn join<R: Threads>(rt: &R, worker: Worker, front: u64) -> Result<Seat, ThreadsFault>
    ensures joined { IfOk result (IsJoined front worker) }
    ensures missing { worker.started ≡ None → result ≡ Err ThreadsFault.NoWorker }
{
    let Worker {
        number,
        entries,
        started,
    } = worker;
    let Some(handle) = started else {
        return Err(ThreadsFault::NoWorker);
    };
    let Served {
        session,
        transcript,
        ended,
    } = handle.join(rt);
    check_ended(ended)?;
    let Transcript { entries: mut later } = transcript;
    check_fronts(&later, number, front)?;
    let mut entries = entries;
    entries.append(&mut later)?;
    Ok(Seat {
        number,
        session,
        entries,
    })
}

/// Fails unless a worker has answered all of its jobs.
fn check_ended(ended: Ended) -> Result<(), ThreadsFault>
    ensures answered { OnOk result (ended ≡ Ended.All) }
    ensures fault { IfErr result (λ fault. fault_of_end ended ≡ Some fault) }
{
    match ended {
        Ended::All => Ok(()),
        Ended::Stopped => Err(ThreadsFault::Stopped),
        Ended::NoGuard => Err(ThreadsFault::NoGuard),
        Ended::OutOfMemory => Err(ThreadsFault::OutOfMemory),
    }
}

/// Fails with `FrontTooLong` (301) if an entry has a longer front than the last publication. No run meets that.
fn check_fronts(entries: &[Entry], session: u64, front: u64) -> Result<(), AuditFault>
    ensures { OnOk result (All (FrontIsAtMost front) entries.now) }
{
    for (at, entry) in entries.iter().enumerate() {
        if entry.answer.front > front {
            return Err(AuditFault::FrontTooLong {
                session,
                entry: at as u64,
            });
        }
    }
    Ok(())
}
