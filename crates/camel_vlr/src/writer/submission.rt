ghost use Rattle.std.specs.Prelude.{◌≡◌, ◌<◌, [], ◌∷◌, OnErr, OnOk};
ghost use Rattle.camel_rows.specs.Store.{with_admission};
ghost use Rattle.camel_rows.specs.Update.{value_of, update_imsi};
ghost use Rattle.camel_vlr.specs.Operation.{HasMore};

use crate::writer::operation::Operation;
use camel_rows::{Admission, CsisChange, Update};
use std::alloc::{AllocError, Global};
use std::collections::VecDeque;

/// Puts an update behind what is pending, and accepts it with the change that it makes of the CSIs in the record of its
/// IMSI. If memory is refused, both are as before.
// It is put into its callers, so that an update is moved into its box from where it lies.
#[inline(always)]
pub(crate) fn accept(
    pending: &mut VecDeque<Operation, Global>,
    admission: &mut Admission,
    alloc: Global,
    update: Update,
    change: CsisChange,
) -> Result<(), AllocError>
    requires room { admission.old.accepted < admission.old.limit }
    requires before { change.before ≡ value_of admission.old.directory (update_imsi update) }
    ensures pending { OnOk result (HasMore (update ∷ []) pending.old.items pending.new.items) }
    ensures none { OnErr result (pending.new.items ≡ pending.old.items) }
    ensures accepted { OnOk result (admission.new ≡ with_admission admission.old (update_imsi update) change.after) }
    ensures unchanged { OnErr result (admission.new ≡ admission.old) }
{
    let imsi = update.imsi();
    let update = Box::new(alloc, update)?;
    pending.reserve(1)?;
    match (imsi, change.before, change.after) {
        // It leaves a record where there was none, for which the admission asks for memory.
        (Some(_), None, Some(_)) => admission.accept(imsi, change.after)?,
        _ => admission.accept_in_place(imsi, change),
    }
    pending.push_back_reserved(Operation::Update(update));
    Ok(())
}
