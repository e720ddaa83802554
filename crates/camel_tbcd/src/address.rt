ghost use Rattle.std.specs.Prelude.{◌≡◌, ◌≤◌, ◌<◌, ◌↔◌, [], ◌∷◌, length, take, IfOk, IsTrue, IsErrOf, OnOk};
ghost use Rattle.camel_tbcd.specs.AddressString.{nature_of, plan_of, address_fault_code, IsAddress, max_address_length};
ghost use Rattle.camel_tbcd.specs.AddressString.{Agree, agrees, compared_bits};

use crate::digits::Digits;
use crate::profile::Profile;
use std::error::Error;
use std::fmt;

/// The greatest number of octets of an AddressString: maxAddressLength of TS 29.002.
pub const MAX_ADDRESS_LENGTH: usize = 20;

/// Why octets are no address. Nothing was made.
#[derive(Clone, Copy, Debug, PartialEq, Eq)]
pub enum AddressFault {
    /// 1: there are no octets.
    Empty,
    /// 2: there are more octets than the type of address has.
    TooLong,
}

impl AddressFault {
    /// The fault's number, 1 or 2.
    pub fn code(&self) -> u16
        ensures { result ≡ address_fault_code self.now }
    {
        match self {
            AddressFault::Empty => 1,
            AddressFault::TooLong => 2,
        }
    }
}

impl fmt::Display for AddressFault {
    fn fmt<W: fmt::Write>(&self, f: &mut fmt::Formatter<W>) -> fmt::Result {
        f.write_str(match self {
            AddressFault::Empty => "the address has no octets",
            AddressFault::TooLong => "the address has too many octets",
        })
    }
}

impl Error for AddressFault {}

/// An AddressString of TS 29.002, borrowed as its octets: 1 to 20 of them.
///
/// Octet 1 has the extension in bit 8, the nature of address in bits 765 and the numbering plan in bits
/// 4321, and TBCD digits follow. No octet is refused for its value.
#[derive(Clone, Copy, Debug)]
pub struct Address<'a> {
    // Its octets, and its digits with their count, so that they are counted once.
    digits: Digits<'a>,
    ghost address: { IsAddress max_address_length digits.bytes.now },
}

impl<'a> Address<'a> {
    ghost use Rattle.camel_tbcd.specs.Address.{octets, digit_list};
    ghost use Rattle.camel_tbcd.specs.AddressString.{digits};

    /// Borrows octets as an address.
    ///
    /// Fails with `Empty` (1) for no octets, and with `TooLong` (2) for more than 20.
    pub fn new(bytes: &'a [u8]) -> Result<Address<'a>, AddressFault>
        ensures address { IfOk result (λ address. octets address ≡ bytes.now) }
        ensures empty { IsErrOf result AddressFault.Empty ↔ (length bytes.now ≡ 0) }
        ensures too_long { IsErrOf result AddressFault.TooLong ↔ (max_address_length < length bytes.now) }
    {
        check_length(bytes.len(), MAX_ADDRESS_LENGTH)?;
        Ok(Address {
            digits: Digits::of_address(bytes),
        })
    }

    /// The address in the first `len` octets of a room, borrowed where it lies. What is behind them is not looked at.
    ///
    /// Fails with `Empty` (1) for no octets, and with `TooLong` (2) for more than 20.
    pub fn in_room(room: &'a [u8; MAX_ADDRESS_LENGTH], len: u8) -> Result<Address<'a>, AddressFault>
        ensures address { IfOk result (λ address. octets address ≡ take len room.now) }
        ensures empty { IsErrOf result AddressFault.Empty ↔ (len ≡ 0) }
        ensures too_long { IsErrOf result AddressFault.TooLong ↔ (max_address_length < len) }
    {
        let len = usize::from(len);
        check_length(len, MAX_ADDRESS_LENGTH)?;
        Ok(Address {
            digits: Digits::in_room(room, len),
        })
    }

    // The address that has these digits.
    pub(crate) fn of_digits(digits: Digits<'a>) -> Address<'a>
        requires { IsAddress max_address_length digits.bytes.now }
        ensures { octets result ≡ digits.entry.bytes.now }
    {
        Address { digits }
    }

    /// The same address, made of its parts. A copy that a call takes by value is this one's own memory to the compiler,
    /// so that this one is written there before, whether the call is made or not; of one that is made anew it is not.
    #[inline(always)]
    pub fn remake(&self) -> Address<'a>
        ensures { octets result ≡ octets self.now }
    {
        Address {
            digits: self.digits.remake(),
        }
    }

    /// The nature of address, 0 to 7: bits 765 of octet 1. TS 29.002 names 0 unknown, 1 international,
    /// 2 national significant, 3 network specific, 4 subscriber and 6 abbreviated.
    pub fn nature(&self) -> u8
        ensures nature { result ≡ nature_of (octets self.now) }
        ensures range { result ≤ 7 }
    {
        self.bytes()[0] / 16 % 8
    }

    /// The numbering plan, 0 to 15: bits 4321 of octet 1. TS 29.002 names 0 unknown, 1 E.164, 3 X.121,
    /// 4 telex, 6 E.212, 8 national and 9 private.
    pub fn plan(&self) -> u8
        ensures plan { result ≡ plan_of (octets self.now) }
        ensures range { result ≤ 15 }
    {
        self.bytes()[0] % 16
    }

    /// Whether two addresses agree in what the profile compares of octet 1: the nature of address, and for
    /// [`Profile::Two`] the numbering plan too. Bit 8 is never compared.
    pub fn agrees(&self, other: &Address, profile: Profile) -> bool
        ensures tested { result ≡ agrees profile (octets self.now) (octets other.now) }
        ensures means { IsTrue result ↔ Agree profile (octets self.now) (octets other.now) }
    {
        differing_bits(self.bytes()[0], other.bytes()[0], profile) == 0
    }

    /// The octets that it was made of, 1 to 20.
    pub fn bytes(&self) -> &'a [u8]
        ensures same { result.now ≡ octets self.now }
        ensures address { IsAddress max_address_length (octets self.now) }
    {
        self.digits.bytes()
    }

    /// Its digits: the nibbles after octet 1, low nibble first, before the first filler. Nothing after that
    /// filler is looked at.
    pub fn digits(&self) -> Digits<'a>
        ensures { digit_list result ≡ digits (octets self.now) }
    {
        self.digits
    }
}

// The bits in which two octets 1 differ of those that a profile compares: 0 exactly if their addresses agree.
pub(crate) fn differing_bits(first: u8, other: u8, profile: Profile) -> u8
    ensures { (result ≡ 0) ↔ Agree profile (first ∷ []) (other ∷ []) }
{
    (first ^ other) & compared_bits(profile)
}

// The bits of octet 1 that a profile compares: those of the nature of address, and of the numbering plan.
fn compared_bits(profile: Profile) -> u8
    ensures { result ≡ compared_bits profile }
{
    match profile {
        Profile::One => 0x70,
        Profile::Two => 0x7f,
    }
}

// The fault of so many octets if an address has 1 to `most`.
pub(crate) fn check_length(len: usize, most: usize) -> Result<(), AddressFault>
    ensures address { OnOk result ((1 ≤ len) × (len ≤ most)) }
    ensures empty { IsErrOf result AddressFault.Empty ↔ (len ≡ 0) }
    ensures too_long { IsErrOf result AddressFault.TooLong ↔ (most < len) }
{
    match len {
        0 => Err(AddressFault::Empty),
        _ if len > most => Err(AddressFault::TooLong),
        _ => Ok(()),
    }
}
