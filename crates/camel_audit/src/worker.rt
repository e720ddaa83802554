ghost use Rattle.std.specs.Prelude.{◌≡◌, ◌≢◌, ◌≤◌, ◌↔◌, false, [], length, map, take, vec_capacity};
ghost use Rattle.camel_vlr.specs.Store.{Answers};
ghost use Rattle.camel_audit.specs.Serves.{Serves, answer_in, event_in, job_of};

use crate::{Entry, Gate, Job, Transcript};
use camel_rows::{Answer, Outcome};
use camel_vlr::{Receipt, Session};
use std::alloc::Global;

/// Why a worker ended.
#[derive(Clone, Copy, Debug, PartialEq, Eq)]
pub enum Ended {
    /// All jobs are answered.
    All,
    /// The gate refused the next call.
    Stopped,
    /// A look failed.
    NoGuard,
    /// Memory was refused for the transcript. Nothing is answered, and the receipt is not learnt.
    OutOfMemory,
}

/// What a worker gives back.
#[derive(Drop)]
pub struct Served {
    /// The session that it was handed.
    pub session: Session,
    /// What it answered: the first of its jobs, in their order.
    pub transcript: Transcript,
    /// Why it ended.
    pub ended: Ended,
}

/// Answers jobs in their order, each by a look of its own, over fronts that extend that of a receipt and all that the
/// session saw and learnt. The receipt has to be of the session's own store.
///
/// Before each look it asks the gate, and it tells the gate of each answer. It ends before all jobs are answered if the
/// gate refuses a call, if a look fails, or if memory is refused; `ended` says so, and the transcript has what was
/// answered before.
pub fn serve<G: Gate>(
    alloc: Global,
    session: Session,
    told: Receipt,
    jobs: Vec<Job>,
    gate: &G,
) -> Served
    requires { told.store ≡ session.store }
    ensures { Serves session told jobs.items result }
{
    let mut session = session;
    let mut entries = Vec::new(alloc);
    let ended = match entries.reserve(jobs.len()) {
        Ok(()) => {
            session.learn(told);
            serve_each(&mut session, &jobs, gate, &mut entries)
        }
        Err(_) => Ended::OutOfMemory,
    };
    Served {
        session,
        transcript: Transcript { entries },
        ended,
    }
}

/// Answers the jobs into an empty list that has room for them.
fn serve_each<G: Gate>(
    session: &mut Session,
    jobs: &[Job],
    gate: &G,
    entries: &mut Vec<Entry>,
) -> Ended
    requires empty { entries.old.items ≡ [] }
    requires room { length jobs.now ≤ vec_capacity entries.old }
    ensures jobs { map job_of entries.new.items ≡ take (length entries.new.items) jobs.now }
    ensures answers { Answers session.old (map event_in entries.new.items) (map answer_in entries.new.items)
        session.new }
    ensures all { result ≡ Ended.All ↔ length entries.new.items ≡ length jobs.now }
    ensures memory { result ≢ Ended.OutOfMemory }
    ensures looks { session.old.looks ≡ false → session.new.looks ≡ false }
{
    // The check of a loop that appends answers needs these types named.
    let _: Option<Answer> = None;
    let _: Option<Outcome> = None;
    for job in jobs {
        if !gate.before(job.call) {
            return Ended::Stopped;
        }
        let Ok(answer) = session.answer(&job.event) else {
            return Ended::NoGuard;
        };
        entries.push_reserved(Entry {
            call: job.call,
            event: job.event,
            answer,
        });
        gate.after(job.call);
    }
    Ended::All
}
