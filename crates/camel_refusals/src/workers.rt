//! Workers.

use crate::attempts::{Refusals, again};
use crate::failure::{Failure, Lost, OUT_OF_MEMORY, check};
use crate::stage::{Stage, set};
use crate::values::{KNOWN, SECOND};
use camel_audit::{Ended, Job, OpenGate, Served, Transcript, serve};
use camel_fixtures::{call_of, imsi_of};
use camel_vlr::{Of, Session, StoreName, Vlr};
use std::alloc::Global;
use std::sync::Wait;

/// Lets a worker answer jobs. After a refusal it returns the session that it was handed.
pub(crate) fn serve_jobs<S: StoreName, R: AllocGlobal + Print + Wait>(
    rt: &R,
    refusals: &mut Refusals,
    mut stage: Stage<S>,
) -> Result<(), Failure> {
    let jobs = set_with_jobs(rt, refusals, &mut stage);
    let (store, session) = stage.into_parts();
    let served = match jobs {
        Ok(jobs) => serve_again(rt.alloc(), refusals, &store, session, jobs),
        Err(failure) => Err(failure),
    };
    store.value.end(rt);
    println!(rt; "{:?}", served?)?;
    Ok(())
}

// Sets the stage, and makes the jobs for each of two times that the call is made.
fn set_with_jobs<S: StoreName, R: AllocGlobal + Wait>(
    rt: &R,
    refusals: &mut Refusals,
    stage: &mut Stage<S>,
) -> Result<(Vec<Job>, Vec<Job>), Failure> {
    let first = again(&mut refusals.stage, || jobs(rt.alloc()))?;
    let second = again(&mut refusals.stage, || jobs(rt.alloc()))?;
    set(rt, refusals, stage)?;
    Ok((first, second))
}

// What a worker answers. If it was refused memory, what another one answers with the same session.
fn serve_again<S: StoreName>(
    alloc: Global,
    refusals: &mut Refusals,
    store: &Of<S, Vlr>,
    session: Of<S, Session>,
    jobs: (Vec<Job>, Vec<Job>),
) -> Result<Transcript, Failure> {
    let (first, second) = jobs;
    let store = &store.value;
    let session = session.value;
    let served = serve(alloc, session, store.receipt(), first, &OpenGate);
    if served.ended != Ended::OutOfMemory {
        return transcript_of(served);
    }
    refusals.call.add(OUT_OF_MEMORY);
    let Served {
        session,
        transcript,
        ..
    } = served;
    let Transcript { entries } = transcript;
    check(entries.is_empty(), Lost::Answer)?;
    check(!session.has_seen(&store.receipt()), Lost::Seen)?;
    transcript_of(serve(alloc, session, store.receipt(), second, &OpenGate))
}

// The transcript of a worker that answered all of its jobs.
fn transcript_of(served: Served) -> Result<Transcript, Failure> {
    let Served {
        transcript,
        ended,
        ..
    } = served;
    check(ended == Ended::All, Lost::Worker)?;
    Ok(transcript)
}

// Jobs of the known subscriber and of one who has no record.
fn jobs(alloc: Global) -> Result<Vec<Job>, Failure> {
    let mut jobs = Vec::new(alloc);
    for call in 0..5 {
        let subscriber = if call % 2 == 0 { KNOWN } else { SECOND };
        let event = call_of(imsi_of(subscriber)?)?;
        jobs.push(Job { call, event })?;
    }
    Ok(jobs)
}
