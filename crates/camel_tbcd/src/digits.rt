ghost use Rattle.std.specs.Prelude.{◌≡◌, ◌≤◌, ◌<◌, ◌↔◌, [], All, IsTrue, drop, length, nat_eq, take, slice_get};
ghost use Rattle.std.specs.Prelude.{slice_index};
ghost use Rattle.std.specs.List.{starts_with};
ghost use mathlib.Core.List.{IsPrefix};
ghost use Rattle.camel_tbcd.specs.AddressString.{IsAddress, max_address_length, digits, nibbles, IsFirstFiller, packed};
ghost use Rattle.camel_tbcd.specs.AddressString.{packed_digits};

use crate::address::MAX_ADDRESS_LENGTH;
use crate::short_list::ShortList;

/// The digits of an address, read where its octets are: no list is made of them.
///
/// A digit is a number from 0 to 14: 0 to 9, 10 for `*`, 11 for `#`, and 12, 13 and 14 for `a`, `b` and `c`.
#[derive(Clone, Copy, Debug)]
pub struct Digits<'a> {
    bytes: &'a [u8],
    // The digits of octets 2 to 9 as one number, so that up to 16 digits are compared in one step.
    number: u64,
    ghost address: { IsAddress max_address_length bytes.now },
    ghost octets: { All (λ octet. octet < 256) bytes.now },
    ghost numbered: { number ≡ packed_digits bytes.now },
}

impl<'a> Digits<'a> {
    ghost use Rattle.camel_tbcd.specs.Address.{digit_list};

    // The digits of an address of these octets.
    pub(crate) fn of_address(bytes: &'a [u8]) -> Digits<'a>
        requires { IsAddress max_address_length bytes.now }
        ensures { result.bytes.now ≡ bytes.now }
    {
        Digits {
            bytes,
            number: packed_digits(bytes),
        }
    }

    // The digits of an address of these octets, by their number, which is known.
    pub(crate) fn of_numbered(bytes: &'a [u8], number: u64) -> Digits<'a>
        requires address { IsAddress max_address_length bytes.now }
        requires numbered { number ≡ packed_digits bytes.now }
        ensures { result.bytes.now ≡ bytes.now }
    {
        Digits { bytes, number }
    }

    // The digits of the address in the first `len` octets of a room, read where they lie.
    pub(crate) fn in_room(room: &'a [u8; MAX_ADDRESS_LENGTH], len: usize) -> Digits<'a>
        requires { (1 ≤ len) × (len ≤ max_address_length) }
        ensures { result.bytes.now ≡ take len room.now }
    {
        Digits {
            bytes: &room[..len],
            number: first_number(room, len),
        }
    }

    // The same digits, made of their parts.
    #[inline(always)]
    pub(crate) fn remake(&self) -> Digits<'a>
        ensures { result.bytes.now ≡ self.now.bytes.now }
    {
        Digits {
            bytes: self.bytes,
            number: self.number,
        }
    }

    // The octets of the address that has these digits.
    pub(crate) fn bytes(&self) -> &'a [u8]
        ensures { result.now ≡ self.now.bytes.now }
    {
        self.bytes
    }

    // The digits of octets 2 to 9 as one number.
    pub(crate) fn number(&self) -> u64
        ensures { result ≡ packed_digits self.now.bytes.now }
    {
        self.number
    }

    /// How many digits there are.
    pub fn len(&self) -> usize
        ensures { result ≡ length (digit_list self.now) }
    {
        digit_count(self.bytes, self.number)
    }

    /// Whether there is no digit.
    pub fn is_empty(&self) -> bool
        ensures { IsTrue result ↔ (digit_list self.now ≡ []) }
    {
        self.len() == 0
    }

    /// The digit at a place, from 0; None from `len` on.
    pub fn get(&self, at: usize) -> Option<u8>
        ensures { result ≡ slice_get (digit_list self.now) at }
    {
        if at < self.len() {
            Some(nibble(self.bytes, at))
        } else {
            None
        }
    }

    /// Whether the digits of `front` are the first ones of these.
    pub fn begins_with(&self, front: &Digits) -> bool
        ensures tested { result ≡ starts_with nat_eq (digit_list self.now) (digit_list front.now) }
        ensures prefix { IsTrue result ↔ IsPrefix (digit_list front.now) (digit_list self.now) }
    {
        self.has_front(front)
    }

    fn has_front(&self, front: &Digits) -> bool
        ensures { IsTrue result ↔ IsPrefix (digit_list front.now) (digit_list self.now) }
    {
        let count = front.len();
        if self.len() < count || !self.has_same_first(front, count.min(PACKED_DIGITS)) {
            return false;
        }
        for at in PACKED_DIGITS..count {
            if nibble(self.bytes, at) != nibble(front.bytes, at) {
                return false;
            }
        }
        true
    }

    // Whether the first `count` digits of both are the same: of a number shifted left, these are left.
    fn has_same_first(&self, other: &Digits, count: usize) -> bool
        requires packed { count ≤ PACKED_DIGITS }
        requires mine { count ≤ length (digit_list self.now) }
        requires theirs { count ≤ length (digit_list other.now) }
        ensures { IsTrue result ↔ (take count (digit_list self.now) ≡ take count (digit_list other.now)) }
    {
        if count == 0 {
            return true;
        }
        let rest = 64 - 4 * count;
        self.number << rest == other.number << rest
    }

    /// Whether the digits are the same, whatever octets hold them.
    pub fn same(&self, other: &Digits) -> bool
        ensures { IsTrue result ↔ (digit_list self.now ≡ digit_list other.now) }
    {
        self.len() == other.len() && self.begins_with(other)
    }
}

// The nibble at a place after octet 1, from 0.
fn nibble(bytes: &[u8], at: usize) -> u8
    requires { at < length (nibbles (drop 1 bytes.now)) }
    ensures { result ≡ slice_index (nibbles (drop 1 bytes.now)) at }
{
    let octet = bytes[1 + at / 2];
    if at % 2 == 0 { octet % 16 } else { octet / 16 }
}

// How many digits an address has whose digits of octets 2 to 9 are this number. Octets behind these are read only if no
// filler is in them.
pub(crate) fn digit_count(bytes: &[u8], number: u64) -> usize
    requires address { IsAddress max_address_length bytes.now }
    requires octets { All (λ octet. octet < 256) bytes.now }
    requires numbered { number ≡ packed_digits bytes.now }
    ensures { result ≡ length (digits bytes.now) }
{
    let count = first_filler(number);
    if count < PACKED_DIGITS {
        return count;
    }
    let end = bytes.len() - 1;
    for at in PACKED_DIGITS / 2..end {
        let octet = bytes[1 + at];
        if octet % 16 == FILLER {
            return 2 * at;
        }
        if octet / 16 == FILLER {
            return 2 * at + 1;
        }
    }
    2 * end
}

// The place of the first filler among the 16 nibbles of a number; 16 if none is a filler.
fn first_filler(number: u64) -> usize
    ensures { IsFirstFiller number result }
{
    // The bits of the number at which two ones begin, and of these the ones at which two more follow: a filler is four.
    let pairs = number & (number >> 1);
    let fillers = pairs & (pairs >> 2) & LOWEST_BITS;
    (fillers.trailing_zeros() / 4) as usize
}

// The digits of octets 2 to 9 as one number.
fn packed_digits(bytes: &[u8]) -> u64
    requires { IsAddress max_address_length bytes.now }
    ensures { result ≡ packed_digits bytes.now }
{
    room_number(ShortList::<MAX_ADDRESS_LENGTH>::from_slice(bytes).room())
}

// The digits of octets 2 to 9 of a room as one number, the first one lowest: one read.
pub(crate) fn room_number(room: &[u8]) -> u64
    requires { 9 ≤ length room.now }
    ensures { result ≡ packed (nibbles (take 8 (drop 1 room.now))) }
{
    u64::from_le_bytes([
        room[1], room[2], room[3], room[4], room[5], room[6], room[7], room[8],
    ])
}

// The digits of octets 2 to 9 of the address in the first `len` octets of a room as one number. It is one read, in
// which fillers take the place of what is behind the address.
pub(crate) fn first_number(room: &[u8], len: usize) -> u64
    requires room { 9 ≤ length room.now }
    requires octets { All (λ octet. octet < 256) room.now }
    requires len { (1 ≤ len) × (len ≤ length room.now) }
    ensures { result ≡ packed_digits (take len room.now) }
{
    let number = room_number(room);
    if len > PACKED_DIGITS / 2 {
        return number;
    }
    let end = 8 * (len - 1);
    number % (1 << end) + (u64::MAX << end)
}

// How many digits are compared as one number: as many as a u64 has room for.
const PACKED_DIGITS: usize = 16;

// The lowest bit of each nibble of a number.
const LOWEST_BITS: u64 = 0x1111_1111_1111_1111;

/// The nibble that fills an odd count of digits, 1111 of TS 29.002.
pub(crate) const FILLER: u8 = 15;
