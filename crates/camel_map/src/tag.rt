//! The identifier octets of the types and fields that are read and written, by their names in the ASN.1 of TS 29.002.
//! A field has the number of its tag, and says whether its contents are octets or elements.

/// INTEGER.
pub(crate) const INTEGER: u8 = 0x02;

/// OCTET STRING, of whatever type it is.
pub(crate) const OCTET_STRING: u8 = 0x04;

/// ENUMERATED.
pub(crate) const ENUMERATED: u8 = 0x0a;

/// SEQUENCE, and SEQUENCE OF.
pub(crate) const SEQUENCE: u8 = 0x30;

/// A field of tag number 0 whose contents are octets.
const PRIMITIVE: u8 = 0x80;

/// A field of tag number 0 whose contents are elements.
const CONSTRUCTED: u8 = 0xa0;

// InsertSubscriberDataArg and DeleteSubscriberDataArg.

pub(crate) const IMSI: u8 = PRIMITIVE;

pub(crate) const CAMEL_SUBSCRIPTION_INFO_WITHDRAW: u8 = PRIMITIVE + 9;

pub(crate) const VLR_CAMEL_SUBSCRIPTION_INFO: u8 = CONSTRUCTED + 13;

pub(crate) const SPECIFIC_CSI_WITHDRAW: u8 = PRIMITIVE + 15;

/// CancelLocationArg of version 3, a SEQUENCE with a tag of its own.
pub(crate) const CANCEL_LOCATION_ARG: u8 = CONSTRUCTED + 3;

// VlrCamelSubscriptionInfo.

pub(crate) const O_CSI: u8 = CONSTRUCTED;

pub(crate) const O_BCSM_CAMEL_TDP_CRITERIA_LIST: u8 = CONSTRUCTED + 4;

pub(crate) const VT_CSI: u8 = CONSTRUCTED + 7;

pub(crate) const VT_BCSM_CAMEL_TDP_CRITERIA_LIST: u8 = CONSTRUCTED + 8;

// O-CSI and T-CSI.

pub(crate) const CAMEL_CAPABILITY_HANDLING: u8 = PRIMITIVE;

// O-BcsmCamelTDPData and T-BcsmCamelTDPData.

pub(crate) const GSM_SCF_ADDRESS: u8 = PRIMITIVE;

pub(crate) const DEFAULT_CALL_HANDLING: u8 = PRIMITIVE + 1;

// O-BcsmCamelTDP-Criteria.

pub(crate) const DESTINATION_NUMBER_CRITERIA: u8 = CONSTRUCTED;

pub(crate) const O_BASIC_SERVICE_CRITERIA: u8 = CONSTRUCTED + 1;

pub(crate) const CALL_TYPE_CRITERIA: u8 = PRIMITIVE + 2;

pub(crate) const O_CAUSE_VALUE_CRITERIA: u8 = CONSTRUCTED + 3;

// T-BCSM-CAMEL-TDP-Criteria.

pub(crate) const T_BASIC_SERVICE_CRITERIA: u8 = CONSTRUCTED;

pub(crate) const T_CAUSE_VALUE_CRITERIA: u8 = CONSTRUCTED + 1;

// DestinationNumberCriteria.

pub(crate) const MATCH_TYPE: u8 = PRIMITIVE;

pub(crate) const DESTINATION_NUMBER_LIST: u8 = CONSTRUCTED + 1;

pub(crate) const DESTINATION_NUMBER_LENGTH_LIST: u8 = CONSTRUCTED + 2;

// Ext-BasicServiceCode.

pub(crate) const EXT_BEARER_SERVICE: u8 = PRIMITIVE + 2;

pub(crate) const EXT_TELESERVICE: u8 = PRIMITIVE + 3;
