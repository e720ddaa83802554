//! Several updates that are accepted in their order, or none of them.

ghost use Rattle.std.specs.Prelude.{◌≡◌, ◌<◌, ◌⊎◌, [], ◌∷◌, fold, IfErr, OnErr, OnOk};
ghost use Rattle.camel_criteria.specs.declared.refusal.Refusal.TheVariants.{OutOfMemory};
ghost use Rattle.camel_rows.specs.Store.{AdmissionData, admission_refusal};
ghost use Rattle.camel_vlr.specs.Store.{AcceptsAll, RejectsAt, refusal_among};
ghost use Rattle.camel_vlr.specs.StoreFields.{AllTakenBackTo, IsTakenBackTo, IsMadeFrom, admitted};
ghost use Rattle.camel_vlr.specs.Operation.{HasMore};
ghost use Rattle.camel_vlr.specs.declared.writer.group.Accepted.{Accepted};

use crate::writer::operation::Operation;
use crate::writer::submission::accept;
use camel_criteria::Refusal;
use camel_rows::{Admission, CsisPresent, Update};
use camel_tbcd::Imsi;
use std::alloc::Global;
use std::collections::VecDeque;

/// Why none of several updates was accepted.
#[derive(Clone, Copy, Debug, PartialEq, Eq)]
pub struct Rejected {
    /// Which one it is, the first being 0.
    pub at: usize,
    /// Why it was not accepted.
    pub why: Refusal,
}

/// An update that was accepted: whom it concerns, and the CSIs in the record of that IMSI before it.
#[derive(Drop)]
struct Accepted {
    imsi: Imsi,
    before: Option<CsisPresent>,
}

/// Accepts the updates in their order, behind those that are pending, or none of them.
pub(crate) fn accept_all(
    pending: &mut VecDeque<Operation, Global>,
    admission: &mut Admission,
    alloc: Global,
    updates: Vec<Update>,
) -> Result<(), Rejected>
    ensures all { OnOk result (AcceptsAll admission_refusal admitted admission.old updates.items) }
    ensures accepted { OnOk result (admission.new ≡ fold admitted admission.old updates.items) }
    ensures pending { OnOk result (HasMore updates.items pending.old.items pending.new.items) }
    ensures rejected { IfErr result
        (λ r. (r.why ≡ OutOfMemory) ⊎ RejectsAt admission_refusal admitted admission.old updates.items r.at r.why) }
    ensures unchanged { OnErr result ((admission.new ≡ admission.old) × (pending.new.items ≡ pending.old.items)) }
{
    let count = pending.len();
    let mut accepted = VecDeque::new(alloc);
    if let Err(rejected) = accept_each(pending, admission, alloc, updates, &mut accepted) {
        take_back(admission, accepted);
        pending.truncate(count);
        return Err(rejected);
    }
    Ok(())
}

/// Accepts the updates in their order up to one that is rejected, and lists the accepted ones, the last one first.
fn accept_each(
    pending: &mut VecDeque<Operation, Global>,
    admission: &mut Admission,
    alloc: Global,
    updates: Vec<Update>,
    accepted: &mut VecDeque<Accepted, Global>,
) -> Result<(), Rejected>
    requires { accepted.old.items ≡ [] }
    ensures all { OnOk result (AcceptsAll admission_refusal admitted admission.old updates.items) }
    ensures accepted { OnOk result (admission.new ≡ fold admitted admission.old updates.items) }
    ensures pending { OnOk result (HasMore updates.items pending.old.items pending.new.items) }
    ensures rejected { IfErr result
        (λ r. (r.why ≡ OutOfMemory) ⊎ RejectsAt admission_refusal admitted admission.old updates.items r.at r.why) }
    ensures made { OnErr result
        (IsMadeFrom admission.old pending.old.items admission.new pending.new.items accepted.new.items) }
{
    for update in updates {
        if let Err(why) = accept_next(pending, admission, alloc, update, accepted) {
            return Err(Rejected {
                at: accepted.len(),
                why,
            });
        }
    }
    Ok(())
}

/// Accepts an update that leaves a record, and puts it in front of the accepted ones.
fn accept_next(
    pending: &mut VecDeque<Operation, Global>,
    admission: &mut Admission,
    alloc: Global,
    update: Update,
    accepted: &mut VecDeque<Accepted, Global>,
) -> Result<(), Refusal>
    ensures taken { OnOk result (refusal_among (admission_refusal admission.old update) update ≡ None) }
    ensures admitted { OnOk result (admission.new ≡ admitted admission.old update) }
    ensures pending { OnOk result (HasMore (update ∷ []) pending.old.items pending.new.items) }
    ensures listed { OnOk result ((one : Accepted) × (accepted.new.items ≡ one ∷ accepted.old.items)
        × IsTakenBackTo admission.old one admission.new) }
    ensures refused { IfErr result
        (λ why. (why ≡ OutOfMemory) ⊎ (refusal_among (admission_refusal admission.old update) update ≡ Some why)) }
    ensures unchanged { OnErr result ((admission.new ≡ admission.old)
        × (pending.new.items ≡ pending.old.items) × (accepted.new.items ≡ accepted.old.items)) }
{
    let change = admission.change(&update)?;
    let (Some(imsi), Some(_)) = (update.imsi(), change.after) else {
        return Err(Refusal::UnexpectedDataValue);
    };
    accepted.reserve(1)?;
    accept(pending, admission, alloc, update, change)?;
    accepted.push_front_reserved(Accepted {
        imsi,
        before: change.before,
    });
    Ok(())
}

/// Takes back the updates that were accepted last, from the last one on. It takes no memory.
fn take_back(admission: &mut Admission, accepted: VecDeque<Accepted, Global>)
    requires { (first : AdmissionData) × AllTakenBackTo first accepted.items admission.old }
    ensures { (first : AdmissionData) → AllTakenBackTo first accepted.items admission.old → admission.new ≡ first }
{
    let mut accepted = accepted;
    while let Some(one) = accepted.pop_front() {
        admission.take_back(&one.imsi, one.before);
    }
}
