ghost use Rattle.std.specs.Prelude.{◌≡◌, ◌<◌, ◌↔◌, length, IfOk, IsErrOf};
ghost use Rattle.camel_tbcd.specs.Address.{octets};
ghost use Rattle.camel_tbcd.specs.AddressString.{IsAddress, max_address_length};

use crate::address::{Address, AddressFault, MAX_ADDRESS_LENGTH, check_length};
use crate::digits::{Digits, room_number};
use crate::short_list::ShortList;
use std::marker::Model;

/// An owned AddressString of TS 29.002, as the destination of a call: 1 to 20 octets.
///
/// Contracts see it as the list of its octets. Two are equal if their octets are.
#[derive(Clone, Copy, Debug, PartialEq, Eq)]
pub struct CallAddress {
    octets: ShortList<MAX_ADDRESS_LENGTH>,
}

impl Model for CallAddress {
    ghost use Rattle.std.specs.Prelude.{ℕ, List};
    ghost use Rattle.camel_tbcd.specs.AddressString.{IsAddress, max_address_length};

    ghost Value = { List ℕ };

    ghost view = { λ a. a.octets };

    ghost invariant = { λ a. IsAddress max_address_length a.octets };

    ghost inverse = { λ octets. record { octets = octets } };
}

impl CallAddress {
    /// Keeps octets as an address.
    ///
    /// Fails with `Empty` (1) for no octets, and with `TooLong` (2) for more than 20.
    pub fn from_bytes(bytes: &[u8]) -> Result<CallAddress, AddressFault>
        ensures address { IfOk result (λ address. address ≡ bytes.now) }
        ensures empty { IsErrOf result AddressFault.Empty ↔ (length bytes.now ≡ 0) }
        ensures too_long { IsErrOf result AddressFault.TooLong ↔ (max_address_length < length bytes.now) }
    {
        check_length(bytes.len(), MAX_ADDRESS_LENGTH)?;
        Ok(CallAddress {
            octets: ShortList::from_slice(bytes),
        })
    }

    /// Its octets, borrowed as an address.
    pub fn lend(&self) -> Address<'_>
        ensures same { octets result ≡ self.now }
        ensures address { IsAddress max_address_length self.now }
    {
        let number = room_number(self.octets.room());
        Address::of_digits(Digits::of_numbered(self.octets.as_slice(), number))
    }
}
