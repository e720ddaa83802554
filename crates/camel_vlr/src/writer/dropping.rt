//! Dropping what is pending.

ghost use Rattle.std.specs.Prelude.{◌≡◌, [], ◌∷◌, ◌++◌, false, true, IfErr, IsOk, OnErr, OnOk};
ghost use Rattle.camel_vlr.specs.Operation.{HasAll, IsAdmissionOver, IsRestored, updates_among};
ghost use Rattle.camel_vlr.specs.Seat.{IsOfItsFront};
ghost use Rattle.camel_vlr.specs.Store.{AllLeave, with_none_pending};

use crate::base::publisher::{HandedOver, Publisher};
use crate::published_copy::PublishedCopy;
use crate::writer::Vlr;
use crate::writer::operation::Operation;
use camel_criteria::Refusal;
use camel_rows::{Admission, Records};
use std::alloc::Global;
use std::collections::VecDeque;

impl<W: Publisher> Vlr<W> {
    /// Drops all that is pending, as if it had not been submitted: the accepted updates are the published ones again,
    /// which also count for the limit. So a switch that was refused memory at a publication, and answers the HLR that
    /// it did not take the data, does not show them later.
    ///
    /// It takes no memory if each pending update leaves a record. If a Cancel or a ClearAll is pending, it goes through
    /// all published records. It fails with `OutOfMemory` (102) if memory was refused, or if a publication over
    /// `left_right` has failed, since that base keeps what it was handed; then all is pending as before.
    pub fn drop_pending(&mut self) -> Result<(), Refusal>
        ensures dropped { OnOk result (self.new ≡ with_none_pending self.old) }
        ensures level { OnOk result (self.old.ahead ≡ false) }
        ensures droppable { W.always_droppable → self.old.ahead ≡ false → AllLeave self.old.updates.pending
            → IsOk result }
        ensures unchanged { OnErr result (self.new ≡ self.old) }
        ensures only { IfErr result (λ why. why ≡ Refusal.OutOfMemory) }
    {
        // No run over `two_copies` fails once the history is ahead of what is published.
        if self.state.is_ahead {
            return Err(Refusal::OutOfMemory);
        }
        restore_admission(
            &self.writer,
            &mut self.state.admission,
            self.state.alloc,
            &self.state.pending,
        )?;
        self.writer.drop_pending();
        self.state.pending.clear();
        Ok(())
    }
}

/// Makes an admission that of the published updates, if the base can drop what it was handed over. Else it is as
/// before.
fn restore_admission<W: Publisher>(
    writer: &W,
    admission: &mut Admission,
    alloc: Global,
    pending: &VecDeque<Operation, Global>,
) -> Result<(), Refusal>
    requires shown { IsOfItsFront (W.shown writer.now) }
    requires over { IsAdmissionOver (W.shown writer.now).front admission.old
        (updates_among (W.pending writer.now ++ pending.now.items)) }
    ensures over { OnOk result (IsAdmissionOver (W.shown writer.now).front admission.new []) }
    ensures droppable { OnOk result (W.droppable writer.now) }
    ensures leave { W.always_droppable → AllLeave (updates_among (W.pending writer.now ++ pending.now.items))
        → IsOk result }
    ensures unchanged { OnErr result (admission.new ≡ admission.old) }
    ensures only { IfErr result (λ why. why ≡ Refusal.OutOfMemory) }
{
    let none = VecDeque::new(alloc);
    let first = match writer.handed_over() {
        HandedOver::Kept => return Err(Refusal::OutOfMemory),
        HandedOver::Nothing => &none,
        HandedOver::Operations(first) => first,
    };
    restore_from(writer.published(), admission, alloc, first, pending)
}

/// Makes an admission that of the updates of a copy, without the operations of two lists behind them.
fn restore_from(
    published: &PublishedCopy,
    admission: &mut Admission,
    alloc: Global,
    first: &VecDeque<Operation, Global>,
    second: &VecDeque<Operation, Global>,
) -> Result<(), Refusal>
    requires shown { IsOfItsFront published.now }
    requires over { IsAdmissionOver published.now.front admission.old
        (updates_among (first.now.items ++ second.now.items)) }
    ensures over { OnOk result (IsAdmissionOver published.now.front admission.new []) }
    ensures leave { AllLeave (updates_among (first.now.items ++ second.now.items)) → IsOk result }
    ensures unchanged { OnErr result (admission.new ≡ admission.old) }
    ensures only { IfErr result (λ why. why ≡ Refusal.OutOfMemory) }
{
    if leave_records(first) && leave_records(second) {
        restore_each(admission, &published.records, first);
        restore_each(admission, &published.records, second);
        admission.restore_accepted(published.count);
    } else {
        *admission = admission.made_anew(alloc, &published.records, published.count)?;
    }
    Ok(())
}

/// Whether each update of a list leaves a record.
fn leave_records(operations: &VecDeque<Operation, Global>) -> bool
    ensures yes { result ≡ true → AllLeave (updates_among operations.now.items) }
    ensures no { AllLeave (updates_among operations.now.items) → result ≡ true }
{
    let mut at = 0;
    while at < operations.len() {
        if !operations[at].leaves_record() {
            return false;
        }
        at += 1;
    }
    true
}

/// Restores what records have of the subscribers of a list.
fn restore_each(
    admission: &mut Admission,
    records: &Records,
    operations: &VecDeque<Operation, Global>,
)
    requires has { HasAll records.now admission.old.directory }
    requires leave { AllLeave (updates_among operations.now.items) }
    ensures restored { IsRestored records.now (updates_among operations.now.items) admission.old admission.new }
    ensures has { HasAll records.now admission.new.directory }
{
    let mut at = 0;
    while at < operations.len() {
        restore_one(admission, records, &operations[at]);
        at += 1;
    }
}

/// Restores what records have of the subscriber of an operation.
fn restore_one(admission: &mut Admission, records: &Records, operation: &Operation)
    requires has { HasAll records.now admission.old.directory }
    requires leaves { AllLeave (updates_among (operation.now ∷ [])) }
    ensures { IsRestored records.now (updates_among (operation.now ∷ [])) admission.old admission.new }
{
    if let Operation::Update(update) = operation {
        if let Some(imsi) = update.imsi() {
            admission.restore(&imsi, records.csis(&imsi));
        }
    }
}
