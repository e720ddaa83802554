ghost use Rattle.std.specs.Prelude.{◌≡◌, Ok, Err, IfErr, IfOk};
ghost use Rattle.camel_tbcd.specs.Address.{octets};
ghost use Rattle.camel_c_data.specs.Fields.{call_address_in, isdn_address_in};

use crate::data_fault::DataFault;
use crate::first_items::room_with;
use camel_tbcd::{Address, CallAddress, IsdnAddress, MAX_ADDRESS_LENGTH, MAX_ISDN_ADDRESS_LENGTH};
use std::mem::size_of;

/// An AddressString of TS 29.002, as the destination of a call: the first `length` octets, 1 to 20. What is behind them
/// is not looked at.
#[repr(C)]
#[derive(Clone, Copy, Debug)]
pub struct CamelAddress {
    pub length: u8,
    pub octets: [u8; MAX_ADDRESS_LENGTH],
}

const _: () = prove!(size_of::<CamelAddress>() == 21);

impl CamelAddress {
    /// The fields of an address. They read as that address.
    #[tactic(auto, unfolding(crate::specs::Fields::call_address_in))]
    pub fn of(address: &CallAddress) -> CamelAddress
        ensures { call_address_in result ≡ Ok address.now }
    {
        let octets = address.lend().bytes();
        CamelAddress {
            length: octets.len() as u8,
            octets: room_with(octets),
        }
    }

    /// The address that the fields are, borrowed where they lie.
    ///
    /// Fails with `Malformed` (502) for no octets and for more than 20.
    #[tactic(auto, unfolding(crate::specs::Fields::call_address_in))]
    pub fn lend(&self) -> Result<Address<'_>, DataFault>
        ensures lent { IfOk result (λ address. call_address_in self.now ≡ Ok (octets address)) }
        ensures malformed { IfErr result (λ fault. call_address_in self.now ≡ Err fault) }
    {
        Ok(Address::in_room(&self.octets, self.length)?)
    }
}

/// An ISDN-AddressString of TS 29.002, as a gsmSCF address or a number of a criterion: the first `length` octets, 1 to
/// 9. What is behind them is not looked at.
#[repr(C)]
#[derive(Clone, Copy, Debug)]
pub struct CamelIsdnAddress {
    pub length: u8,
    pub octets: [u8; MAX_ISDN_ADDRESS_LENGTH],
}

const _: () = prove!(size_of::<CamelIsdnAddress>() == 10);

impl CamelIsdnAddress {
    /// The fields of an address, with octets 0xFF behind it. They read as that address.
    #[inline]
    #[tactic(auto, unfolding(crate::specs::Fields::isdn_address_in))]
    pub fn of(address: &IsdnAddress) -> CamelIsdnAddress
        ensures { isdn_address_in result ≡ Ok address.now }
    {
        CamelIsdnAddress {
            length: address.len(),
            octets: *address.room(),
        }
    }

    /// No address: no octets.
    pub(crate) fn none() -> CamelIsdnAddress
        ensures { result.length ≡ 0 }
    {
        CamelIsdnAddress {
            length: 0,
            octets: [0; MAX_ISDN_ADDRESS_LENGTH],
        }
    }

    /// The address that the fields are.
    ///
    /// Fails with `Malformed` (502) for no octets and for more than 9.
    #[tactic(auto, unfolding(crate::specs::Fields::isdn_address_in))]
    pub fn read(&self) -> Result<IsdnAddress, DataFault>
        ensures { result ≡ isdn_address_in self.now }
    {
        Ok(IsdnAddress::in_room(&self.octets, self.length)?)
    }
}
