//! Data that C has: IMSIs and addresses, which a caller makes once per call, and the argument that makes a record.

ghost use Rattle.std.specs.Prelude.{◌≡◌, ◌≢◌, ◌≤◌, ◌⊎◌, Ok, IfOk, IsErr, IsOk, OnErr, OnOk, length};
ghost use Rattle.camel_tbcd.specs.AddressString.{max_address_length, max_isdn_address_length};
ghost use Rattle.camel_tbcd.specs.Imsi.{imsi_of_ascii, imsi_of_tbcd};
ghost use Rattle.camel_c_data.specs.Fields.{call_address_in, isdn_address_in, imsi_in, ok_or_malformed};
ghost use Rattle.camel_c.specs.Object.{HasOctets};

use crate::Failure;
use camel_c_data::{CamelAddress, CamelImsi, CamelIsdnAddress};
use camel_map::MAX_ARGUMENT_OCTETS;
use camel_tbcd::{CallAddress, Imsi, IsdnAddress};
use std::mem::size_of;

/// Writes the IMSI that 3 to 8 TBCD octets are (TS 29.002). It fails with 502 if they are none, and leaves the IMSI as
/// it was.
#[unsafe(no_mangle)]
pub extern "C" fn camel_imsi_of_tbcd_nonnull(octets: &[u8], imsi: &mut CamelImsi) -> u32
    ensures written { result ≡ 0 → imsi_in imsi.new ≡ ok_or_malformed (imsi_of_tbcd octets.now) }
    ensures unchanged { result ≢ 0 → imsi.new ≡ imsi.old }
    ensures only { IsOk (imsi_of_tbcd octets.now) → result ≡ 0 }
    ensures malformed { IsErr (imsi_of_tbcd octets.now) → result ≡ 502 }
{
    let made = Imsi::from_tbcd(octets).map(|it| CamelImsi::of(&it));
    write_made(made, imsi)
}

/// Writes the IMSI that 5 to 15 characters 0 to 9 are. It fails with 502 if they are none, and leaves the IMSI as it
/// was.
#[unsafe(no_mangle)]
pub extern "C" fn camel_imsi_of_digits_nonnull(digits: &[u8], imsi: &mut CamelImsi) -> u32
    ensures written { result ≡ 0 → imsi_in imsi.new ≡ ok_or_malformed (imsi_of_ascii digits.now) }
    ensures unchanged { result ≢ 0 → imsi.new ≡ imsi.old }
    ensures only { IsOk (imsi_of_ascii digits.now) → result ≡ 0 }
    ensures malformed { IsErr (imsi_of_ascii digits.now) → result ≡ 502 }
{
    let made = Imsi::from_ascii(digits).map(|it| CamelImsi::of(&it));
    write_made(made, imsi)
}

/// Writes the AddressString of these octets, 1 to 20 (TS 29.002). It fails with 502 if they are none, and leaves the
/// address as it was.
#[unsafe(no_mangle)]
pub extern "C" fn camel_address_of_nonnull(octets: &[u8], address: &mut CamelAddress) -> u32
    ensures written { result ≡ 0 → call_address_in address.new ≡ Ok octets.now }
    ensures unchanged { result ≢ 0 → address.new ≡ address.old }
    ensures only { 1 ≤ length octets.now → length octets.now ≤ max_address_length → result ≡ 0 }
    ensures malformed { (result ≡ 0) ⊎ (result ≡ 502) }
{
    let made = CallAddress::from_bytes(octets).map(|it| CamelAddress::of(&it));
    write_made(made, address)
}

/// Writes the ISDN-AddressString of these octets, 1 to 9 (TS 29.002). It fails with 502 if they are none, and leaves
/// the address as it was.
#[unsafe(no_mangle)]
pub extern "C" fn camel_isdn_address_of_nonnull(
    octets: &[u8],
    address: &mut CamelIsdnAddress,
) -> u32
    ensures written { result ≡ 0 → isdn_address_in address.new ≡ Ok octets.now }
    ensures unchanged { result ≢ 0 → address.new ≡ address.old }
    ensures only { 1 ≤ length octets.now → length octets.now ≤ max_isdn_address_length → result ≡ 0 }
    ensures malformed { (result ≡ 0) ⊎ (result ≡ 502) }
{
    let made = IsdnAddress::from_bytes(octets).map(|it| CamelIsdnAddress::of(&it));
    write_made(made, address)
}

/// Writes what was made. It fails with 502 if nothing was, and leaves the place as it was.
fn write_made<C: Copy, E: Copy>(made: Result<C, E>, place: &mut C) -> u32
    ensures written { IfOk made (λ value. (result ≡ 0) × (place.new ≡ value)) }
    ensures malformed { OnErr made ((result ≡ 502) × (place.new ≡ place.old)) }
{
    match made {
        Ok(value) => {
            *place = value;
            0
        }
        Err(_) => Failure::Malformed.code(),
    }
}

/// The argument of a MAP operation: the first `count` octets, up to 1198, and 0 behind them.
#[repr(C)]
#[derive(Clone, Copy, Debug)]
pub struct CamelArgument {
    pub count: u16,
    pub octets: [u8; MAX_ARGUMENT_OCTETS],
}

const _: () = prove!(size_of::<CamelArgument>() == 1200);

/// There are more octets than an argument has room for.
#[derive(Clone, Copy, Debug)]
pub(crate) struct TooLong;

impl CamelArgument {
    /// Writes these octets in the place of what it has. Fails if there is no room for them; it is as before then.
    pub(crate) fn set(&mut self, octets: &[u8]) -> Result<(), TooLong>
        ensures written { OnOk result (HasOctets octets.now self.new) }
        ensures unchanged { OnErr result (self.new ≡ self.old) }
    {
        let count = octets.len();
        if count > MAX_ARGUMENT_OCTETS {
            return Err(TooLong);
        }
        let mut room = [0; MAX_ARGUMENT_OCTETS];
        room[..count].copy_from_slice(octets);
        *self = CamelArgument {
            count: count as u16,
            octets: room,
        };
        Ok(())
    }
}
