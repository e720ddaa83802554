//! What stands for the values of criteria and of rows.

ghost use Rattle.std.specs.Prelude.{◌≡◌, [], ◌∷◌};
ghost use Rattle.camel_map.specs.Encoding.{call_type_number, cause_element, handling_number, leaf, match_type_number};
ghost use Rattle.camel_map.specs.Encoding.{number_element, service_element};
ghost use Rattle.camel_map.specs.Reading.{integer, octet_string, primitive};

use crate::encoding::element::{close, put_leaf};
use crate::encoding::list::{Part, put_some};
use crate::encoding::writer::{TooLong, Writer};
use crate::tag::{
    CALL_TYPE_CRITERIA, DESTINATION_NUMBER_CRITERIA, DESTINATION_NUMBER_LENGTH_LIST,
    DESTINATION_NUMBER_LIST, EXT_BEARER_SERVICE, EXT_TELESERVICE, INTEGER, MATCH_TYPE,
    OCTET_STRING,
};
use camel_criteria::{BasicService, CallType, Handling, MatchType, NumberCriterion};
use camel_tbcd::IsdnAddress;

/// DefaultCallHandling.
pub(crate) fn handling_number(handling: Handling) -> u8
    ensures { result ≡ handling_number handling }
{
    match handling {
        Handling::Continue => 0,
        Handling::Release => 1,
    }
}

/// MatchType.
fn match_type_number(match_type: MatchType) -> u8
    ensures { result ≡ match_type_number match_type }
{
    match match_type {
        MatchType::Inhibiting => 0,
        MatchType::Enabling => 1,
    }
}

/// CallTypeCriteria.
fn call_type_number(call_type: CallType) -> u8
    ensures { result ≡ call_type_number call_type }
{
    match call_type {
        CallType::Forwarded => 0,
        CallType::NotForwarded => 1,
    }
}

/// A listed number.
pub(crate) struct Number;

impl Part<IsdnAddress> for Number {
    ghost element_of = { leaf octet_string };

    fn put(writer: &mut Writer, number: &IsdnAddress) -> Result<(), TooLong> {
        put_leaf(writer, OCTET_STRING, number.lend().bytes())
    }
}

/// A listed length, in digits.
pub(crate) struct Length;

impl Part<u8> for Length {
    ghost element_of = { λ count. leaf integer (count ∷ []) };

    fn put(writer: &mut Writer, count: &u8) -> Result<(), TooLong> {
        put_leaf(writer, INTEGER, &[*count])
    }
}

/// CauseValue.
pub(crate) struct Cause;

impl Part<u8> for Cause {
    ghost element_of = { cause_element };

    fn put(writer: &mut Writer, cause: &u8) -> Result<(), TooLong> {
        put_leaf(writer, OCTET_STRING, &[*cause])
    }
}

/// Ext-BasicServiceCode.
pub(crate) struct Service;

impl Part<BasicService> for Service {
    ghost element_of = { service_element };

    fn put(writer: &mut Writer, service: &BasicService) -> Result<(), TooLong> {
        match *service {
            BasicService::Bearer(octet) => put_leaf(writer, EXT_BEARER_SERVICE, &[octet]),
            BasicService::Tele(octet) => put_leaf(writer, EXT_TELESERVICE, &[octet]),
        }
    }
}

/// CallTypeCriteria of an entry.
pub(crate) struct CallTypeField;

impl Part<CallType> for CallTypeField {
    ghost element_of = { λ call_type. leaf (primitive 2) (call_type_number call_type ∷ []) };

    fn put(writer: &mut Writer, call_type: &CallType) -> Result<(), TooLong> {
        put_leaf(writer, CALL_TYPE_CRITERIA, &[call_type_number(*call_type)])
    }
}

/// DestinationNumberCriteria of an entry.
pub(crate) struct NumberField;

#[tactic(auto, using(crate::proofs::Written::Elements::before_append, crate::proofs::Written::Elements::behind_before))]
impl Part<NumberCriterion> for NumberField {
    ghost element_of = { number_element };

    fn put(writer: &mut Writer, criterion: &NumberCriterion) -> Result<(), TooLong> {
        let behind = writer.len();
        put_some::<Length, u8>(writer, DESTINATION_NUMBER_LENGTH_LIST, criterion.lengths())?;
        put_some::<Number, IsdnAddress>(writer, DESTINATION_NUMBER_LIST, criterion.numbers())?;
        put_leaf(
            writer,
            MATCH_TYPE,
            &[match_type_number(criterion.match_type())],
        )?;
        close(writer, DESTINATION_NUMBER_CRITERIA, behind)
    }
}
