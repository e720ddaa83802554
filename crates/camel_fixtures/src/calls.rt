//! Subscribers, numbers, and the calls of a subscriber.

use camel_criteria::{BasicService, Refusal};
use camel_rows::CallEvent;
use camel_tbcd::{AddressFault, CallAddress, Imsi, ImsiFault, IsdnAddress};

/// The destination of a call: the international number 1 2 3 4.
pub const DESTINATION: [u8; 3] = [0x91, 0x21, 0x43];

/// The teleservice of telephony.
pub const TELEPHONY: BasicService = BasicService::Tele(0x11);

/// The subscriber with this number, of which the last ten digits count: 26201 and those digits.
pub fn imsi_of(number: u64) -> Result<Imsi, ImsiFault> {
    let mut digits = [2, 6, 2, 0, 1, 0, 0, 0, 0, 0, 0, 0, 0, 0, 0];
    let mut left = number;
    for digit in digits.iter_mut().rev().take(10) {
        *digit = (left % 10) as u8;
        left /= 10;
    }
    Imsi::from_digits(&digits)
}

/// The number of these octets. Fails with `UnexpectedDataValue` (36) if they are not 1 to 9.
pub fn number_of(octets: &[u8]) -> Result<IsdnAddress, Refusal> {
    match IsdnAddress::from_bytes(octets) {
        Ok(number) => Ok(number),
        Err(_) => Err(Refusal::UnexpectedDataValue),
    }
}

/// A call of a subscriber to `DESTINATION`, at detection point 2.
pub fn call_of(imsi: Imsi) -> Result<CallEvent, AddressFault> {
    Ok(CallEvent::CollectedInfo {
        imsi,
        destination: CallAddress::from_bytes(&DESTINATION)?,
        basic: TELEPHONY,
        forwarded: false,
    })
}
