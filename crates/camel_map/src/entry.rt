//! The entries of criteria: O-BcsmCamelTDP-Criteria and T-BCSM-CAMEL-TDP-Criteria.

ghost use Rattle.std.specs.Prelude.{◌≡◌, [], ◌∷◌, ◌++◌, OnOk};
ghost use Rattle.camel_map.specs.Encoding.{call_type_number, cause_element, if_any, if_some, leaf, service_element};
ghost use Rattle.camel_map.specs.Encoding.{before};
ghost use Rattle.camel_map.specs.Reading.{constructed, primitive};

use crate::criteria::{read_listed, read_number_criterion};
use crate::encoding::element::put_number_leaf;
use crate::encoding::list::{put_any, put_some};
use crate::encoding::value::{CallTypeField, Cause, NumberField, Service};
use crate::encoding::writer::{TooLong, Writer};
use crate::field::{find_field, mandatory, read_present};
use crate::item::MapItem;
use crate::map_fault::MapFault;
use crate::reading::or_refused_at;
use crate::tag::{
    CALL_TYPE_CRITERIA, DESTINATION_NUMBER_CRITERIA, ENUMERATED, O_BASIC_SERVICE_CRITERIA,
    O_CAUSE_VALUE_CRITERIA, T_BASIC_SERVICE_CRITERIA, T_CAUSE_VALUE_CRITERIA,
};
use crate::value::{read_basic_service, read_call_type, read_cause, read_detection_point};
use camel_ber::Element;
use camel_criteria::{BasicService, CallType, NumberCriterion, OCriteria, TCriteria};
use std::alloc::{AllocError, Global};

impl MapItem for OCriteria {
    ghost use Rattle.camel_map.specs.Csi.{o_entry_of_fields};
    ghost use Rattle.camel_map.specs.Encoding.{o_entry_fields};

    ghost of_fields = { o_entry_of_fields };

    ghost fields_of = { o_entry_fields };

    #[tactic(auto, unfolding(crate::specs::Csi::o_entry_of_fields))]
    fn read_fields(
        alloc: Global,
        item: &Element<'_>,
        fields: &[Element<'_>],
    ) -> Result<OCriteria, MapFault> {
        let dp = read_detection_point(&mandatory(item, ENUMERATED, fields)?)?;
        let number = read_present(
            find_field(fields, DESTINATION_NUMBER_CRITERIA)?,
            |field| read_number_criterion(alloc, field),
        )?;
        let basic = read_listed(
            alloc,
            find_field(fields, O_BASIC_SERVICE_CRITERIA)?,
            read_basic_service,
        )?;
        let call_type = read_present(find_field(fields, CALL_TYPE_CRITERIA)?, read_call_type)?;
        let causes = read_listed(
            alloc,
            find_field(fields, O_CAUSE_VALUE_CRITERIA)?,
            read_cause,
        )?;
        let made = OCriteria::new(alloc, dp, number, &basic, call_type, &causes);
        or_refused_at(item.place, made)
    }

    fn copy(&self) -> Result<OCriteria, AllocError> {
        self.clone()
    }

    #[tactic(auto, using(crate::proofs::Written::Elements::before_append))]
    fn put_fields(&self, writer: &mut Writer) -> Result<(), TooLong> {
        put_behind_number(writer, self)?;
        put_any::<NumberField, NumberCriterion>(writer, self.number())?;
        put_number_leaf(writer, ENUMERATED, u32::from(self.dp()))
    }
}

/// The fields of an entry that stand behind its number criterion.
#[tactic(auto, using(crate::proofs::Written::Elements::before_append))]
fn put_behind_number(writer: &mut Writer, entry: &OCriteria) -> Result<(), TooLong>
    ensures { OnOk result (writer.new ≡ before (if_some (constructed 1) service_element entry.now.basic
        ++ if_any (λ call_type. leaf (primitive 2) (call_type_number call_type ∷ [])) entry.now.call_type
        ++ if_some (constructed 3) cause_element entry.now.causes) writer.old) }
{
    put_some::<Cause, u8>(writer, O_CAUSE_VALUE_CRITERIA, entry.causes())?;
    let call_type = entry.call_type();
    put_any::<CallTypeField, CallType>(writer, call_type.as_ref())?;
    put_some::<Service, BasicService>(writer, O_BASIC_SERVICE_CRITERIA, entry.basic())
}

impl MapItem for TCriteria {
    ghost use Rattle.camel_map.specs.Csi.{t_entry_of_fields};
    ghost use Rattle.camel_map.specs.Encoding.{t_entry_fields};

    ghost of_fields = { t_entry_of_fields };

    ghost fields_of = { t_entry_fields };

    #[tactic(auto, unfolding(crate::specs::Csi::t_entry_of_fields))]
    fn read_fields(
        alloc: Global,
        item: &Element<'_>,
        fields: &[Element<'_>],
    ) -> Result<TCriteria, MapFault> {
        let dp = read_detection_point(&mandatory(item, ENUMERATED, fields)?)?;
        let basic = read_listed(
            alloc,
            find_field(fields, T_BASIC_SERVICE_CRITERIA)?,
            read_basic_service,
        )?;
        let causes = read_listed(
            alloc,
            find_field(fields, T_CAUSE_VALUE_CRITERIA)?,
            read_cause,
        )?;
        or_refused_at(item.place, TCriteria::new(dp, &basic, &causes))
    }

    fn copy(&self) -> Result<TCriteria, AllocError> {
        self.clone()
    }

    #[tactic(auto, using(crate::proofs::Written::Elements::before_append))]
    fn put_fields(&self, writer: &mut Writer) -> Result<(), TooLong> {
        put_some::<Cause, u8>(writer, T_CAUSE_VALUE_CRITERIA, self.causes())?;
        put_some::<Service, BasicService>(writer, T_BASIC_SERVICE_CRITERIA, self.basic())?;
        put_number_leaf(writer, ENUMERATED, u32::from(self.dp()))
    }
}
