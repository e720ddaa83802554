ghost use Rattle.std.specs.Prelude.{◌≡◌, ◌≢◌, Ok, true, false, IfErr, OnOk};
ghost use Rattle.camel_audit.specs.Audit.{AreExplained, IsBadHistory, IsFault, IsFaultOf, Passes};
ghost use Rattle.camel_rows.specs.Update.{Accepted, records_from};

use crate::{AuditFault, Part, Transcript, passes_in_part};
use camel_criteria::Refusal;
use camel_rows::{Outcome, Records, Update};
use camel_tbcd::Profile;
use std::alloc::Global;

/// Checks that the updates explain each transcript under a profile: they are accepted one after the other, no session's
/// front goes back, and each answer is the decision over as many updates as its front has.
///
/// Fails with the first fault: of the updates, with `BadHistory` (304); then session by session and entry by entry,
/// with `FrontTooLong` (301), `FrontWentBack` (302) or `AnswerDiffers` (303). Fails with `OutOfMemory` (102) if memory
/// is refused.
///
/// It takes one pass over the updates if they explain all, and else one more, and one for each transcript up to the
/// fault.
pub fn audit(
    alloc: Global,
    updates: &[Update],
    transcripts: &[Transcript],
    profile: Profile,
) -> Result<(), AuditFault>
    ensures passes { OnOk result (Passes profile updates.now transcripts.now) }
    ensures fault { IfErr result (λ fault. IsFault profile updates.now transcripts.now fault) }
{
    if passes_whole(alloc, updates, transcripts, profile)? {
        return Ok(());
    }
    check_updates(alloc, updates)?;
    for (session, transcript) in transcripts.iter().enumerate() {
        check_transcript(alloc, updates, transcript, session as u64, profile)?;
    }
    Ok(())
}

/// Whether the updates explain each transcript, by the part that has all subscribers.
fn passes_whole(
    alloc: Global,
    updates: &[Update],
    transcripts: &[Transcript],
    profile: Profile,
) -> Result<bool, AuditFault>
    ensures passes { result ≡ Ok true → Passes profile updates.now transcripts.now }
    ensures only { IfErr result (λ fault. fault ≡ AuditFault.OutOfMemory) }
{
    passes_in_part(alloc, updates, transcripts, profile, Part::whole())
}

/// Checks that the updates are accepted one after the other.
fn check_updates(alloc: Global, updates: &[Update]) -> Result<(), AuditFault>
    ensures accepted { OnOk result (Accepted updates.now) }
    ensures fault { IfErr result (λ fault. IsBadHistory updates.now fault) }
{
    let mut records = Records::new(alloc);
    for (at, update) in updates.iter().enumerate() {
        match records.apply(update) {
            Ok(()) => {}
            Err(Refusal::OutOfMemory) => return Err(AuditFault::OutOfMemory),
            Err(_) => return Err(AuditFault::BadHistory { at: at as u64 }),
        }
    }
    Ok(())
}

/// Checks the transcript of the session with this number, by the records that the front of each entry leaves.
fn check_transcript(
    alloc: Global,
    updates: &[Update],
    transcript: &Transcript,
    session: u64,
    profile: Profile,
) -> Result<(), AuditFault>
    ensures explained { OnOk result (AreExplained profile updates.now 0 transcript.now) }
    ensures fault { IfErr result (λ fault. IsFaultOf profile updates.now transcript.now session fault) }
{
    let mut records = Records::new(alloc);
    let mut front = 0;
    for (at, next) in transcript.entries.iter().enumerate() {
        let entry = at as u64;
        if next.answer.front > updates.len() as u64 {
            return Err(AuditFault::FrontTooLong { session, entry });
        }
        let length = next.answer.front as usize;
        if length < front {
            return Err(AuditFault::FrontWentBack { session, entry });
        }
        apply_all(&mut records, &updates[front..length])?;
        front = length;
        if !are_same(
            &next.answer.outcome,
            &Outcome::decide(&records, &next.event, profile),
        ) {
            return Err(AuditFault::AnswerDiffers { session, entry });
        }
    }
    Ok(())
}

/// Whether two outcomes are the same.
pub(crate) fn are_same(one: &Outcome, other: &Outcome) -> bool
    ensures yes { result ≡ true → one.now ≡ other.now }
    ensures no { result ≡ false → one.now ≢ other.now }
{
    one == other
}

/// Applies updates, of which those that the records refuse change nothing.
fn apply_all(records: &mut Records, updates: &[Update]) -> Result<(), AuditFault>
    ensures applied { OnOk result (records.new ≡ records_from records.old updates.now) }
    ensures only { IfErr result (λ fault. fault ≡ AuditFault.OutOfMemory) }
{
    for update in updates {
        if let Err(Refusal::OutOfMemory) = records.apply(update) {
            return Err(AuditFault::OutOfMemory);
        }
    }
    Ok(())
}
