//! The arguments of the operations.

ghost use Rattle.std.specs.Prelude.{◌≡◌, ◌++◌, [], ◌∷◌, IfOk, OnOk};
ghost use Rattle.std.specs.Option.{option_copied};
ghost use Rattle.camel_map.specs.Encoding.{camel_parts, everything_parts, leaf, parent, specific_parts, tbcd_octets};
ghost use Rattle.camel_map.specs.Encoding.{before, octets_of_update, operation_of_update};
ghost use Rattle.camel_map.specs.Reading.{constructed, octet_string, primitive, sequence};

use crate::encoding::csi::{put_csi, put_csi_criteria};
use crate::encoding::element::{close, put_leaf};
use crate::encoding::imsi::put_imsi;
use crate::encoding::writer::{TooLong, Writer};
use crate::operation::Operation;
use crate::tag::{
    CAMEL_SUBSCRIPTION_INFO_WITHDRAW, CANCEL_LOCATION_ARG, IMSI, O_BCSM_CAMEL_TDP_CRITERIA_LIST,
    O_CSI, OCTET_STRING, SEQUENCE, SPECIFIC_CSI_WITHDRAW, VLR_CAMEL_SUBSCRIPTION_INFO,
    VT_BCSM_CAMEL_TDP_CRITERIA_LIST, VT_CSI,
};
use camel_criteria::{OCriteria, TCriteria};
use camel_rows::{
    OCriteriaSet, OCsi, Originating, TCriteriaSet, Update, VmscTerminating, VtCsi, Withdrawal,
};
use camel_tbcd::Imsi;

/// The fields of VlrCamelSubscriptionInfo.
#[tactic(auto, using(crate::proofs::Written::Elements::before_append))]
fn put_camel_fields(
    writer: &mut Writer,
    o: Option<&OCsi>,
    o_criteria: Option<&OCriteriaSet>,
    vt: Option<&VtCsi>,
    t_criteria: Option<&TCriteriaSet>,
) -> Result<(), TooLong>
    ensures { OnOk result (writer.new ≡ before (camel_parts (option_copied o.entry) (option_copied o_criteria.entry)
        (option_copied vt.entry) (option_copied t_criteria.entry)) writer.old) }
{
    put_csi_criteria::<VmscTerminating, TCriteria>(
        writer,
        VT_BCSM_CAMEL_TDP_CRITERIA_LIST,
        t_criteria,
    )?;
    put_csi(writer, VT_CSI, vt)?;
    put_csi_criteria::<Originating, OCriteria>(writer, O_BCSM_CAMEL_TDP_CRITERIA_LIST, o_criteria)?;
    put_csi(writer, O_CSI, o)
}

/// InsertSubscriberDataArg.
#[tactic(auto, using(crate::proofs::Written::Elements::behind_before))]
fn put_insert(
    writer: &mut Writer,
    imsi: &Imsi,
    o: Option<&OCsi>,
    o_criteria: Option<&OCriteriaSet>,
    vt: Option<&VtCsi>,
    t_criteria: Option<&TCriteriaSet>,
) -> Result<(), TooLong>
    ensures { OnOk result (writer.new ≡ before (parent sequence (leaf (primitive 0) (tbcd_octets imsi.now)
        ∷ parent (constructed 13) (camel_parts (option_copied o.entry) (option_copied o_criteria.entry)
        (option_copied vt.entry) (option_copied t_criteria.entry))
        ∷ []) ∷ []) writer.old) }
{
    let behind = writer.len();
    put_camel_fields(writer, o, o_criteria, vt, t_criteria)?;
    close(writer, VLR_CAMEL_SUBSCRIPTION_INFO, behind)?;
    put_imsi(writer, IMSI, imsi)?;
    close(writer, SEQUENCE, behind)
}

/// The specificCSI-Withdraw of the CSIs that a Delete names, if it names any.
fn put_specific(writer: &mut Writer, o: bool, vt: bool) -> Result<(), TooLong>
    ensures { OnOk result (writer.new ≡ before (specific_parts o vt) writer.old) }
{
    match (o, vt) {
        (false, false) => Ok(()),
        (true, false) => put_leaf(writer, SPECIFIC_CSI_WITHDRAW, &[0, 0x80]),
        (false, true) => put_leaf(writer, SPECIFIC_CSI_WITHDRAW, &[0, 0x08]),
        (true, true) => put_leaf(writer, SPECIFIC_CSI_WITHDRAW, &[0, 0x88]),
    }
}

/// The camelSubscriptionInfoWithdraw of a Delete of everything.
fn put_everything(writer: &mut Writer, everything: bool) -> Result<(), TooLong>
    ensures { OnOk result (writer.new ≡ before (everything_parts everything) writer.old) }
{
    if everything {
        return put_leaf(writer, CAMEL_SUBSCRIPTION_INFO_WITHDRAW, &[]);
    }
    Ok(())
}

/// DeleteSubscriberDataArg.
#[tactic(auto, using(crate::proofs::Written::Elements::before_append, crate::proofs::Written::Elements::behind_before))]
fn put_delete(writer: &mut Writer, imsi: &Imsi, what: Withdrawal) -> Result<(), TooLong>
    ensures { OnOk result (writer.new ≡ before (parent sequence (leaf (primitive 0) (tbcd_octets imsi.now)
        ∷ everything_parts what.everything ++ specific_parts what.o what.vt) ∷ []) writer.old) }
{
    let behind = writer.len();
    put_specific(writer, what.o, what.vt)?;
    put_everything(writer, what.everything)?;
    put_imsi(writer, IMSI, imsi)?;
    close(writer, SEQUENCE, behind)
}

/// CancelLocationArg.
fn put_cancel(writer: &mut Writer, imsi: &Imsi) -> Result<(), TooLong>
    ensures { OnOk result (writer.new ≡ before (parent (constructed 3)
        (leaf octet_string (tbcd_octets imsi.now) ∷ []) ∷ []) writer.old) }
{
    let behind = writer.len();
    put_imsi(writer, OCTET_STRING, imsi)?;
    close(writer, CANCEL_LOCATION_ARG, behind)
}

/// The argument that says an update, with its operation; nothing for a Register and a ClearAll.
pub(crate) fn put_argument(
    writer: &mut Writer,
    update: &Update,
) -> Result<Option<Operation>, TooLong>
    ensures operation { IfOk result (λ operation. operation ≡ operation_of_update update.now) }
    ensures octets { OnOk result (writer.new ≡ octets_of_update update.now ++ writer.old) }
{
    match update {
        Update::Insert {
            imsi,
            o,
            o_criteria,
            vt,
            t_criteria,
        } => {
            put_insert(
                writer,
                imsi,
                o.as_ref(),
                o_criteria.as_ref(),
                vt.as_ref(),
                t_criteria.as_ref(),
            )?;
            Ok(Some(Operation::InsertSubscriberData))
        }
        Update::Delete { imsi, what } => {
            put_delete(writer, imsi, *what)?;
            Ok(Some(Operation::DeleteSubscriberData))
        }
        Update::Cancel { imsi } => {
            put_cancel(writer, imsi)?;
            Ok(Some(Operation::CancelLocation))
        }
        Update::Register { .. } | Update::ClearAll => Ok(None),
    }
}
