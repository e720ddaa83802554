//! How an audit ends. That the fault is the first one, and at its place, is its contract; that it is found, and that an
//! audit passes, is shown here.

use camel_audit::{AuditFault, Entry, Transcript, audit};
use camel_criteria::Refusal;
use camel_fixtures::{call_of, imsi_of, row_update, triggered};
use camel_rows::{Answer, CallEvent, Outcome, Reason, Update};
use camel_tbcd::{Imsi, Profile};
use std::alloc::Global;
use std::test::Fail;

/// An answer by how many updates its front has, and whether the service is invoked; if not, no CSI is stored.
pub(crate) type PlainAnswer = (u64, bool);

/// The subscriber registers, and is sent the row.
pub(crate) fn row_updates(alloc: Global, imsi: Imsi) -> Result<Vec<Update>, Refusal> {
    let mut updates = Vec::new(alloc);
    updates.push(Update::Register { imsi })?;
    updates.push(row_update(imsi)?)?;
    Ok(updates)
}

/// The transcript of a session that answered this at calls of the subscriber 1.
pub(crate) fn transcript_of(alloc: Global, answers: &[PlainAnswer]) -> Result<Transcript, Fail> {
    // The prover finds the types of an entry that is pushed only if the function names them.
    let _: Option<Answer> = None;
    let _: Option<Outcome> = None;
    let event = call_of(imsi_of(1)?)?;
    let service = triggered()?;
    let mut entries = Vec::new(alloc);
    for answer in answers {
        entries.push(entry_of(event, service, *answer))?;
    }
    Ok(Transcript { entries })
}

fn entry_of(event: CallEvent, service: Outcome, answer: PlainAnswer) -> Entry {
    let (front, is_triggered) = answer;
    let outcome = if is_triggered {
        service
    } else {
        Outcome::NoTrigger(Reason::NoCsi)
    };
    Entry {
        call: 0,
        event,
        answer: Answer { front, outcome },
    }
}

/// What each session answered, and how the audit ends.
type Case<'a> = (&'a [&'a [PlainAnswer]], Result<(), AuditFault>);

// Which case is the first one that ends otherwise.
fn first_other(alloc: Global, updates: &[Update], cases: &[Case]) -> Result<Option<usize>, Fail> {
    for (at, (answers, wanted)) in cases.iter().enumerate() {
        if audited(alloc, updates, answers)? != *wanted {
            return Ok(Some(at));
        }
    }
    Ok(None)
}

fn audited(
    alloc: Global,
    updates: &[Update],
    answers: &[&[PlainAnswer]],
) -> Result<Result<(), AuditFault>, Fail> {
    let mut transcripts = Vec::new(alloc);
    for of_session in answers {
        transcripts.push(transcript_of(alloc, of_session)?)?;
    }
    Ok(audit(alloc, updates, &transcripts, Profile::One))
}

#[test]
fn an_audit_passes_or_ends_with_the_fault_of_an_answer(rt: HostRuntime) -> Result<(), Fail> {
    let (session, entry) = (0, 0);
    let went_back = AuditFault::FrontWentBack { session, entry: 1 };
    let other_session = AuditFault::AnswerDiffers { session: 1, entry };
    let updates = row_updates(rt.alloc(), imsi_of(1)?)?;
    let other = first_other(
        rt.alloc(),
        &updates,
        &[
            (&[&[(1, false), (2, true), (2, true)], &[]], Ok(())),
            (
                &[&[(3, true)]],
                Err(AuditFault::FrontTooLong { session, entry }),
            ),
            (&[&[(2, true), (1, false)]], Err(went_back)),
            (&[&[(2, true)], &[(2, false)]], Err(other_session)),
        ],
    );
    assert_eq!(rt; other?, None);
    Ok(())
}

#[test]
fn an_audit_ends_with_the_update_that_is_refused(rt: HostRuntime) -> Result<(), Fail> {
    let refused = [row_update(imsi_of(1)?)?];
    let audited = audit(rt.alloc(), &refused, &[], Profile::One);
    assert_eq!(rt; audited, Err(AuditFault::BadHistory { at: 0 }));
    Ok(())
}
