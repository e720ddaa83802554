//! Segments of a script: its records up to and including a publication.

ghost use Rattle.std.specs.Prelude.{◌≡◌, ◌+◌, ◌^◌, ◌<◌, ◌≤◌, ◌++◌, length, IfOk};
ghost use Rattle.camel_replay_lib.specs.Rounds.{IsCutOff, jobs_for, jobs_from};

use camel_audit::Job;
use camel_rows::CallEvent;
use camel_script::Record;
use std::alloc::{AllocError, Global};
use std::collections::VecDeque;

/// The records of a segment: its calls, and the others, which the writer answers.
#[derive(Drop)]
pub(crate) struct Segment {
    pub(crate) calls: Vec<Job>,
    pub(crate) others: VecDeque<Record>,
}

/// Takes the first segment off the records. `first` is the number of its first call.
pub(crate) fn cut_segment(
    alloc: Global,
    records: &mut VecDeque<Record>,
    first: u64,
) -> Result<Segment, AllocError>
    requires few { first + length records.old.items < 2 ^ 64 }
    ensures { IfOk result (λ segment. IsCutOff first records.old.items records.new.items segment) }
{
    let mut segment = Segment {
        calls: Vec::new(alloc),
        others: VecDeque::new(alloc),
    };
    'records: while let Some(next) = records.pop_front() {
        match next {
            Record::Call(event) => {
                let call = first + segment.calls.len() as u64;
                segment.calls.push(Job { call, event })?;
            }
            Record::Publish => {
                segment.others.push_back(Record::Publish)?;
                return Ok(segment);
            }
            other => segment.others.push_back(other)?,
        }
    }
    Ok(segment)
}

/// The jobs of a session: the calls among these that the session of this number answers.
pub(crate) fn jobs_for(
    alloc: Global,
    calls: &[Job],
    threads: u64,
    session: u64,
) -> Result<Vec<Job>, AllocError>
    requires threads { 1 ≤ threads }
    ensures { IfOk result (λ jobs. jobs.items ≡ jobs_for threads session calls.now) }
{
    // The check of a loop that appends jobs needs this type named.
    let _: Option<CallEvent> = None;
    let mut jobs = Vec::new(alloc);
    // The calls are numbered one after the other, so a session answers its part of them, or one more.
    jobs.reserve((calls.len() / threads as usize).saturating_add(1))?;
    for job in calls {
        if job.call % threads == session {
            jobs.push(*job)?;
        }
    }
    Ok(jobs)
}
