ghost use Rattle.std.specs.Prelude.{◌≡◌, ◌+◌, ◌<◌, ◌≤◌, ◌↔◌, ◌&&◌, length, nat_eq, take, IfOk, IsErrOf};
ghost use Rattle.std.specs.Cmp.{partial_equiv_from_equiv};
ghost use Rattle.std.specs.Cmp.Lexicographic.{nat_list_eq_equiv, pointwise};
ghost use Rattle.std.specs.List.{starts_with};
ghost use Rattle.camel_tbcd.specs.Address.{octets, digit_list};
ghost use Rattle.camel_tbcd.specs.AddressString.{IsAddress, max_isdn_address_length, digits, packed_digits, agrees};
ghost use Rattle.camel_tbcd.specs.AddressString.{room_with};

use crate::address::{Address, AddressFault, check_length, differing_bits};
use crate::digits::{Digits, digit_count, first_number, room_number};
use crate::profile::Profile;
use crate::short_list::ShortList;
use std::marker::Model;
use std::mem::size_of;

/// The greatest number of octets of an ISDN-AddressString: maxISDN-AddressLength of TS 29.002.
pub const MAX_ISDN_ADDRESS_LENGTH: usize = 9;

/// An ISDN-AddressString of TS 29.002, as a gsmSCF address or a number of a criterion: 1 to 9 octets.
///
/// Contracts see it as the list of its octets. Two are equal if their octets are.
///
/// It takes 10 octets, of which a record of a subscriber holds many: the room, and both counts in the octet after it.
/// The digits are counted when it is made, so that no comparison counts them.
#[derive(Clone, Copy, Debug)]
pub struct IsdnAddress {
    // Octet 1, the digits in octets 2 to 9, and fillers after the last octet, so that the digits are read as one number
    // and equal addresses have equal fields.
    room: [u8; MAX_ISDN_ADDRESS_LENGTH],
    // The count of octets, and 10 for each digit that there are fewer than 16: a comparison shifts by these.
    counts: u8,
}

impl Model for IsdnAddress {
    ghost use Rattle.std.specs.Prelude.{ℕ, List};
    ghost use Rattle.std.proofs.Common.{sym};
    ghost use Rattle.camel_tbcd.specs.AddressString.{max_isdn_address_length, IsCounted, counted_octets, counts_of};
    ghost use Rattle.camel_tbcd.specs.AddressString.{room_with};

    ghost Value = { List ℕ };

    ghost view = { λ a. counted_octets a.counts a.room };

    ghost invariant = { λ a. IsCounted a.room a.counts };

    ghost inverse = { λ octets. record { room = room_with max_isdn_address_length octets; counts = counts_of octets } };

    ghost inverse_ok = { λ a h i. record { room = sym h.kept.fill i; counts = sym h.counted i } };
}

impl IsdnAddress {
    /// Keeps octets as an address.
    ///
    /// Fails with `Empty` (1) for no octets, and with `TooLong` (2) for more than 9.
    pub fn from_bytes(bytes: &[u8]) -> Result<IsdnAddress, AddressFault>
        ensures address { IfOk result (λ address. address ≡ bytes.now) }
        ensures empty { IsErrOf result AddressFault.Empty ↔ (length bytes.now ≡ 0) }
        ensures too_long { IsErrOf result AddressFault.TooLong ↔ (max_isdn_address_length < length bytes.now) }
    {
        check_length(bytes.len(), MAX_ISDN_ADDRESS_LENGTH)?;
        let octets = ShortList::from_slice(bytes);
        Ok(IsdnAddress::of_room(octets.room(), bytes.len()))
    }

    /// Keeps the address in the first `len` octets of a room. Nothing is copied octet by octet.
    ///
    /// Fails with `Empty` (1) for no octets, and with `TooLong` (2) for more than 9.
    pub fn in_room(
        room: &[u8; MAX_ISDN_ADDRESS_LENGTH],
        len: u8,
    ) -> Result<IsdnAddress, AddressFault>
        ensures address { IfOk result (λ address. address ≡ take len room.now) }
        ensures empty { IsErrOf result AddressFault.Empty ↔ (len ≡ 0) }
        ensures too_long { IsErrOf result AddressFault.TooLong ↔ (max_isdn_address_length < len) }
    {
        let len = usize::from(len);
        check_length(len, MAX_ISDN_ADDRESS_LENGTH)?;
        Ok(IsdnAddress::of_room(room, len))
    }

    // The address in the first `len` octets of a room.
    fn of_room(room: &[u8; MAX_ISDN_ADDRESS_LENGTH], len: usize) -> IsdnAddress
        requires { (1 ≤ len) × (len ≤ max_isdn_address_length) }
        ensures { result ≡ take len room.now }
    {
        let number = first_number(room, len);
        let fewer = MOST_DIGITS - digit_count(&room[..len], number);
        IsdnAddress {
            room: filled_room(room, len, number),
            counts: COUNT_PLACE * fewer as u8 + len as u8,
        }
    }

    /// Its octets, borrowed as an address.
    pub fn lend(&self) -> Address<'_>
        ensures same { octets result ≡ self.now }
        ensures address { IsAddress max_isdn_address_length self.now }
    {
        Address::of_digits(self.read())
    }

    /// How many octets it has, 1 to 9.
    pub fn len(&self) -> u8
        ensures len { result ≡ length self.now }
        ensures address { IsAddress max_isdn_address_length self.now }
    {
        self.counts % COUNT_PLACE
    }

    /// The room of its octets, to be copied at once: they are the first ones, and 0xff is in the places behind them.
    pub fn room(&self) -> &[u8; MAX_ISDN_ADDRESS_LENGTH]
        ensures octets { take (length self.now) result.now ≡ self.now }
        ensures filled { result.now ≡ room_with max_isdn_address_length self.now }
    {
        &self.room
    }

    /// Its digits, as those of the address that it lends.
    pub fn digits(&self) -> Digits<'_>
        ensures { digit_list result ≡ digits self.now }
    {
        self.read()
    }

    /// Whether a destination begins with this number: both agree in what the profile compares of octet 1, and the
    /// digits of this number are the first ones of the destination's. It does not branch, since nothing of this can be
    /// foreseen.
    pub fn is_front_of(&self, destination: &Address, profile: Profile) -> bool
        ensures { result ≡ (agrees profile self.now (octets destination.now)
            && starts_with nat_eq (digits (octets destination.now)) (digits self.now)) }
    {
        let front = self.read();
        let digits = destination.digits();
        // Half of the bits after the digits of this number: all of them can be too many for one shift. A destination
        // with fewer digits differs by the filler behind them.
        let half = 2 * self.fewer();
        let differing = (digits.number() ^ front.number()) << half << half;
        let differing_first = differing_bits(self.room[0], destination.bytes()[0], profile);
        differing | u64::from(differing_first) == 0
    }

    // Its octets, with their digits.
    fn read(&self) -> Digits<'_>
        ensures octets { result.bytes.now ≡ self.now }
        ensures address { IsAddress max_isdn_address_length self.now }
    {
        Digits::of_numbered(self.octets(), self.number())
    }

    // Its octets.
    fn octets(&self) -> &[u8]
        ensures octets { result.now ≡ self.now }
        ensures address { IsAddress max_isdn_address_length self.now }
    {
        &self.room[..usize::from(self.counts % COUNT_PLACE)]
    }

    // How many digits it has fewer than 16.
    fn fewer(&self) -> usize
        ensures { result + length (digits self.now) ≡ MOST_DIGITS }
    {
        usize::from(self.counts / COUNT_PLACE)
    }

    // The digits of octets 2 to 9 as one number.
    fn number(&self) -> u64
        ensures { result ≡ packed_digits self.now }
    {
        room_number(&self.room)
    }
}

// The first `len` octets of a room, of whose digits this is the number, with fillers behind them.
fn filled_room(
    room: &[u8; MAX_ISDN_ADDRESS_LENGTH],
    len: usize,
    number: u64,
) -> [u8; MAX_ISDN_ADDRESS_LENGTH]
    requires len { (1 ≤ len) × (len ≤ max_isdn_address_length) }
    requires number { number ≡ packed_digits (take len room.now) }
    ensures { result ≡ room_with max_isdn_address_length (take len room.now) }
{
    let digits = number.to_le_bytes();
    [
        room[0], digits[0], digits[1], digits[2], digits[3], digits[4], digits[5], digits[6],
        digits[7],
    ]
}

impl PartialEq for IsdnAddress {
    ghost eq = { pointwise nat_eq };

    ghost laws = { partial_equiv_from_equiv nat_list_eq_equiv };

    fn eq(&self, other: &IsdnAddress) -> bool {
        self.octets() == other.octets()
    }
}

impl Eq for IsdnAddress {
    ghost laws = { nat_list_eq_equiv };
}

const _: () = prove!(size_of::<IsdnAddress>() == 10);

// What a digit fewer than 16 adds to the counts: more than the count of octets, which is 1 to 9.
const COUNT_PLACE: u8 = 10;

// The most digits that are in octets 2 to 9.
const MOST_DIGITS: usize = 16;
