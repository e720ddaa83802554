ghost use Rattle.std.specs.Prelude.{◌≡◌};
ghost use Rattle.camel_criteria.specs.BasicService.{bearer_groups, covers, covers_octet, is_emergency, tele_groups};

/// The octet of teleservice 12 hexadecimal, emergency calls: TS 29.002, TeleserviceCode.
pub const EMERGENCY_CALLS: u8 = 0x12;

/// The basic service of a call, with the first octet of its code: Ext-TeleserviceCode or
/// Ext-BearerServiceCode of TS 29.002.
#[derive(Clone, Copy, Debug, PartialEq, Eq)]
pub enum BasicService {
    /// A teleservice.
    Tele(u8),
    /// A bearer service.
    Bearer(u8),
}

// What is in the places of a list that hold no code.
pub(crate) const BLANK: BasicService = BasicService::Tele(0);

impl BasicService {
    /// Whether it is the teleservice of emergency calls, to which CAMEL does not apply (TS 23.078).
    pub fn is_emergency(&self) -> bool
        ensures { result ≡ is_emergency self.now }
    {
        // Kind and octet are compared as one number: which kind a call is of cannot be foreseen, and so makes no
        // branch.
        let (BasicService::Tele(octet) | BasicService::Bearer(octet)) = *self;
        let is_bearer = matches!(self, BasicService::Bearer(_));
        u16::from(is_bearer) * 256 + u16::from(octet) == u16::from(EMERGENCY_CALLS)
    }
}

/// Whether a code that a criterion lists covers the code of a call.
///
/// It covers itself. A group covers its members too: teleservice 00 every teleservice, 10 11 and 12, 60 61
/// to 63, 80 every one but 20 to 22; bearer service 00 every bearer service, 10 11 to 17, 18 19 to 1f
/// (octets in hexadecimal). A group as the code of a call is an octet like any other.
pub fn covers(listed: BasicService, call: BasicService) -> bool
    ensures { result ≡ covers listed call }
{
    match (listed, call) {
        (BasicService::Tele(listed), BasicService::Tele(octet)) => tele_covers(listed, octet),
        (BasicService::Bearer(listed), BasicService::Bearer(octet)) => bearer_covers(listed, octet),
        _ => false,
    }
}

fn tele_covers(listed: u8, octet: u8) -> bool
    ensures { result ≡ covers_octet tele_groups listed octet }
{
    listed == octet
        || match listed {
            0x00 => true,
            0x10 => matches!(octet, 0x11 | 0x12),
            0x60 => matches!(octet, 0x61..=0x63),
            0x80 => !matches!(octet, 0x20..=0x22),
            _ => false,
        }
}

fn bearer_covers(listed: u8, octet: u8) -> bool
    ensures { result ≡ covers_octet bearer_groups listed octet }
{
    listed == octet
        || match listed {
            0x00 => true,
            0x10 => matches!(octet, 0x11..=0x17),
            0x18 => matches!(octet, 0x19..=0x1f),
            _ => false,
        }
}
