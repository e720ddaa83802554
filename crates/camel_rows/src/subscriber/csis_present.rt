ghost use Rattle.std.specs.Prelude.{◌≡◌, Some, None, IfErr, OnOk};
ghost use Rattle.camel_rows.specs.Update.{csis_after, csis_refusal, insert_refusal, lacks_csi};

use crate::{CriteriaSet, Csi, OCriteriaSet, OCsi, TCriteriaSet, Update, VtCsi};
use camel_criteria::{CriteriaEntry, Refusal};

/// Which CSIs are stored in the record of a subscriber.
#[derive(Clone, Copy, Debug, Default, PartialEq, Eq)]
pub struct CsisPresent {
    /// The O-CSI.
    pub o: bool,
    /// The VT-CSI.
    pub vt: bool,
}

/// The CSIs in the record of the subscriber whom an update concerns, before the update and after it. Each is None if
/// there is no record, or if the update concerns all subscribers.
#[derive(Clone, Copy, Debug)]
pub struct CsisChange {
    /// Before the update.
    pub before: Option<CsisPresent>,
    /// After it.
    pub after: Option<CsisPresent>,
}

/// Whether an update may be applied to a record with these CSIs, or to none.
///
/// Fails with `UnidentifiedSubscriber` (5) for an Insert or a Delete if there is no record, and with `DataMissing` (35)
/// for an Insert of criteria without their CSI if that CSI is not stored.
pub(crate) fn check_update(csis: Option<CsisPresent>, update: &Update) -> Result<(), Refusal>
    ensures refused { IfErr result (λ why. csis_refusal csis update.now ≡ Some why) }
    ensures accepted { OnOk result (csis_refusal csis update.now ≡ None) }
{
    match (update, csis) {
        (Update::Register { .. } | Update::Cancel { .. } | Update::ClearAll, _) => Ok(()),
        (_, None) => Err(Refusal::UnidentifiedSubscriber),
        (Update::Delete { .. }, Some(_)) => Ok(()),
        (
            Update::Insert {
                o,
                o_criteria,
                vt,
                t_criteria,
                ..
            },
            Some(csis),
        ) => check_insert(csis, o, o_criteria, vt, t_criteria),
    }
}

/// Whether an Insert may be applied to a record with these CSIs. Fails with `DataMissing` (35) for criteria without
/// their CSI if that CSI is not stored.
pub(crate) fn check_insert(
    csis: CsisPresent,
    o: &Option<OCsi>,
    o_criteria: &Option<OCriteriaSet>,
    vt: &Option<VtCsi>,
    t_criteria: &Option<TCriteriaSet>,
) -> Result<(), Refusal>
    ensures refused { IfErr result
        (λ why. insert_refusal (Some csis) o.now o_criteria.now vt.now t_criteria.now ≡ Some why) }
    ensures accepted { OnOk result (insert_refusal (Some csis) o.now o_criteria.now vt.now t_criteria.now ≡ None) }
{
    if lacks_csi(csis.o, o, o_criteria) || lacks_csi(csis.vt, vt, t_criteria) {
        return Err(Refusal::DataMissing);
    }
    Ok(())
}

/// Whether criteria come without their CSI, and that CSI is not stored.
fn lacks_csi<K: Copy, const MOST: usize, E: CriteriaEntry>(
    is_stored: bool,
    csi: &Option<Csi<K, MOST>>,
    criteria: &Option<CriteriaSet<E>>,
) -> bool
    ensures { result ≡ lacks_csi is_stored csi.now criteria.now }
{
    !is_stored && csi.is_none() && criteria.is_some()
}

/// The CSIs that an update which is not refused leaves, over a record with these or over none; None if it leaves no
/// record.
pub(crate) fn csis_after(csis: Option<CsisPresent>, update: &Update) -> Option<CsisPresent>
    ensures { result ≡ csis_after csis update.now }
{
    match update {
        Update::Register { .. } => Some(CsisPresent {
            o: false,
            vt: false,
        }),
        Update::Insert { o, vt, .. } => {
            let old = csis?;
            Some(CsisPresent {
                o: old.o || o.is_some(),
                vt: old.vt || vt.is_some(),
            })
        }
        Update::Delete { what, .. } => {
            let old = csis?;
            Some(CsisPresent {
                o: old.o && !what.removes_o(),
                vt: old.vt && !what.removes_vt(),
            })
        }
        Update::Cancel { .. } | Update::ClearAll => None,
    }
}
