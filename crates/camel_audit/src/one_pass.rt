//! An audit of a part of the subscribers in one pass over the updates, of all transcripts at once.

ghost use Rattle.std.specs.Prelude.{◌≡◌, Ok, true, [], ◌∷◌, IfErr, length, map};
ghost use Rattle.camel_audit.specs.Audit.{AreExplainedTo, IsDecidedOver, IsExplainedTo, PassesInPart, is_member};
ghost use Rattle.camel_audit.specs.Audit.{updates_of_part};
ghost use Rattle.camel_rows.specs.Update.{AcceptedFrom, records_from, records_of};

use crate::checks::are_same;
use crate::{AuditFault, Entry, Part, Transcript};
use camel_criteria::Refusal;
use camel_rows::{Outcome, Records, Update};
use camel_tbcd::Profile;
use std::alloc::Global;

/// Whether the updates of a part are accepted one after the other, and explain the entries of the part in each
/// transcript, in which no front goes back or has more updates than there are. It applies each of the part's updates
/// once: behind each update, the entries whose front ends there are compared, of every transcript.
///
/// Fails only with `OutOfMemory` (102). That it returns false is no finding: it doesn't say where a fault is.
///
/// It looks at all updates and entries, of those of other parts at no more than the IMSI and the front, and has records
/// of the part's subscribers only. So parts may be audited side by side, in the memory of one audit of all. If each
/// passes, all does ([`parts_make_the_whole`](crate::parts_make_the_whole)).
pub fn passes_in_part(
    alloc: Global,
    updates: &[Update],
    transcripts: &[Transcript],
    profile: Profile,
    part: Part,
) -> Result<bool, AuditFault>
    ensures passes { result ≡ Ok true
        → PassesInPart (is_member part) profile updates.now transcripts.now }
    ensures only { IfErr result (λ fault. fault ≡ AuditFault.OutOfMemory) }
{
    let mut records = Records::new(alloc);
    let Ok(mut places) = Vec::from_elem(alloc, 0, transcripts.len()) else {
        return Err(AuditFault::OutOfMemory);
    };
    move_all(
        &records,
        &updates[..0],
        transcripts,
        profile,
        part,
        &mut places,
    );
    for (at, update) in updates.iter().enumerate() {
        if !is_accepted(&mut records, update, part)? {
            return Ok(false);
        }
        move_all(
            &records,
            &updates[..at + 1],
            transcripts,
            profile,
            part,
            &mut places,
        );
    }
    Ok(are_ends(transcripts, &places))
}

/// Whether an update is accepted, if it is one of the part. Then it is applied; one of other parts is passed over.
fn is_accepted(records: &mut Records, update: &Update, part: Part) -> Result<bool, AuditFault>
    ensures accepted { result ≡ Ok true
        → AcceptedFrom records.old (updates_of_part (is_member part) (update.now ∷ [])) }
    ensures applied { result ≡ Ok true
        → records.new ≡ records_from records.old (updates_of_part (is_member part) (update.now ∷ [])) }
    ensures only { IfErr result (λ fault. fault ≡ AuditFault.OutOfMemory) }
{
    if !part.is_concerned(update) {
        return Ok(true);
    }
    match records.apply(update) {
        Ok(()) => Ok(true),
        Err(Refusal::OutOfMemory) => Err(AuditFault::OutOfMemory),
        Err(_) => Ok(false),
    }
}

/// Moves the place in each transcript behind the entries that are explained by a front and have no shorter one.
/// `records` are those that the part's updates of the front leave.
fn move_all(
    records: &Records,
    front: &[Update],
    transcripts: &[Transcript],
    profile: Profile,
    part: Part,
    places: &mut [usize],
)
    requires records { records.now ≡ records_of (updates_of_part (is_member part) front.now) }
    requires explained { AreExplainedTo (is_member part) profile front.now transcripts.now places.old }
    ensures { AreExplainedTo (is_member part) profile front.now transcripts.now places.new }
{
    for (session, transcript) in transcripts.iter().enumerate() {
        places[session] = place_after(
            records,
            front,
            &transcript.entries,
            profile,
            part,
            places[session],
        );
    }
}

/// The place behind the entries from this place on that are explained by a front and have no shorter one. `records`
/// are those that the part's updates of the front leave.
fn place_after(
    records: &Records,
    front: &[Update],
    entries: &[Entry],
    profile: Profile,
    part: Part,
    place: usize,
) -> usize
    requires records { records.now ≡ records_of (updates_of_part (is_member part) front.now) }
    requires explained { IsExplainedTo (is_member part) profile front.now entries.now place }
    ensures { IsExplainedTo (is_member part) profile front.now entries.now result }
{
    let mut place = place;
    'entries: while place < entries.len() {
        let entry = &entries[place];
        if entry.answer.front != front.len() as u64
            || !is_decided_over(records, entry, profile, part)
        {
            return place;
        }
        place += 1;
    }
    place
}

/// Whether the answer of an entry is the decision over these records, if its subscriber is in the part.
fn is_decided_over(records: &Records, entry: &Entry, profile: Profile, part: Part) -> bool
    ensures { result ≡ true → IsDecidedOver (is_member part) profile records.now entry.now }
{
    !part.has(&entry.event.imsi())
        || are_same(
            &entry.answer.outcome,
            &Outcome::decide(records, &entry.event, profile),
        )
}

/// Whether the place in each transcript is its end.
fn are_ends(transcripts: &[Transcript], places: &[usize]) -> bool
    requires { length places.now ≡ length transcripts.now }
    ensures { result ≡ true → places.now ≡ map length transcripts.now }
{
    for (session, transcript) in transcripts.iter().enumerate() {
        if places[session] != transcript.entries.len() {
            return false;
        }
    }
    true
}
