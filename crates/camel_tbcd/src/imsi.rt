ghost use Rattle.std.specs.Prelude.{◌≡◌, ◌≤◌, ◌^◌, ◌/◌, ◌%◌, ◌↔◌, length, position, take, ◌*◌, nat_eq, nat_lt, All};
ghost use Rattle.std.specs.Prelude.{IsNone, IfOk, IfSome, IsOk};
ghost use Rattle.std.specs.Ordering.{nat_cmp, as_partial_cmp};
ghost use Rattle.std.specs.Cmp.{partial_equiv_from_equiv, partial_order_from_agreeing_total};
ghost use Rattle.std.specs.Cmp.Lexicographic.{slice_cmp, pointwise, nat_list_cmp_total, nat_list_eq_equiv, texts_ties};
ghost use Rattle.std.proofs.Common.{refl};
ghost use Rattle.camel_tbcd.specs.AddressString.{nibbles};
ghost use Rattle.camel_tbcd.specs.Imsi.{IsImsi, digit_values, imsi_of, imsi_of_ascii, imsi_of_nibbles, imsi_of_tbcd};
ghost use Rattle.camel_tbcd.specs.Imsi.{without_filler, IsNumberOfNone, digits_of_number, imsi_number, imsi_fault_code};

use crate::digits::FILLER;
use crate::first_digits::FirstDigits;
use crate::imsi_digits::ImsiDigits;
use std::cmp::Ordering;
use std::error::Error;
use std::fmt;
use std::marker::Model;

/// The least number of digits of an IMSI: 3 octets with a filler, the least size of an IMSI in TS 29.002.
pub const MIN_IMSI_DIGITS: usize = 5;

/// The greatest number of digits of an IMSI, by TS 23.003.
pub const MAX_IMSI_DIGITS: usize = 15;

/// The least number of octets of an IMSI as a TBCD-STRING: SIZE (3..8) of TS 29.002.
pub const MIN_IMSI_OCTETS: usize = 3;

/// The greatest number of octets of an IMSI as a TBCD-STRING: SIZE (3..8) of TS 29.002.
pub const MAX_IMSI_OCTETS: usize = 8;

/// Why digits are no IMSI. Nothing was made.
#[derive(Clone, Copy, Debug, PartialEq, Eq)]
pub enum ImsiFault {
    /// 1: there are fewer than 5 digits or more than 15.
    Length,
    /// 2: the value at the place `at`, from 0, is no decimal digit, and each before it is one.
    NotDigit { at: usize },
}

impl ImsiFault {
    /// The fault's number, 1 or 2.
    pub fn code(&self) -> u16
        ensures { result ≡ imsi_fault_code self.now }
    {
        match self {
            ImsiFault::Length => 1,
            ImsiFault::NotDigit { .. } => 2,
        }
    }
}

impl fmt::Display for ImsiFault {
    fn fmt<W: fmt::Write>(&self, f: &mut fmt::Formatter<W>) -> fmt::Result {
        match self {
            ImsiFault::Length => f.write_str("an IMSI has 5 to 15 digits"),
            ImsiFault::NotDigit { at } => write!(f, "no decimal digit at {at}"),
        }
    }
}

impl Error for ImsiFault {}

/// An international mobile subscriber identity of TS 23.003: 5 to 15 digits, each 0 to 9.
///
/// It takes 8 octets, and one comparison tells whether two are equal. Contracts see it as the list of its digits.
/// Equality and order are those of the lists, and the order is lexicographic.
#[derive(Clone, Copy, Debug)]
pub struct Imsi {
    // The count of the digits in the highest octet, and their decimal value in the others.
    number: u64,
}

impl Model for Imsi {
    ghost use Rattle.std.specs.Prelude.{◌≡◌, ℕ, List};
    ghost use Rattle.std.proofs.Common.{sym};
    ghost use Rattle.camel_tbcd.specs.Imsi.{IsImsi, digits_of_number, imsi_number};

    ghost Value = { List ℕ };

    ghost view = { λ a. digits_of_number a.number };

    ghost invariant = { λ a. IsImsi (digits_of_number a.number)
        × (a.number ≡ imsi_number (digits_of_number a.number)) };

    ghost inverse = { λ digits. record { number = imsi_number digits } };

    ghost inverse_ok = { λ a h i. record { number = sym h.1 i } };
}

impl Imsi {
    /// Keeps digits, each as its value, as an IMSI.
    ///
    /// Fails with `Length` (1) for fewer than 5 digits or more than 15, and else with `NotDigit` (2) and the place,
    /// from 0, of the first value over 9.
    pub fn from_digits(digits: &[u8]) -> Result<Imsi, ImsiFault>
        ensures answer { result ≡ imsi_of digits.now }
        ensures kept { IfOk result (λ imsi. imsi ≡ digits.now) }
        ensures imsi { IsOk result ↔ IsImsi digits.now }
    {
        if digits.len() < MIN_IMSI_DIGITS || digits.len() > MAX_IMSI_DIGITS {
            return Err(ImsiFault::Length);
        }
        match first_over_nine(digits) {
            Some(at) => Err(ImsiFault::NotDigit { at }),
            None => Ok(Imsi::of_decimal(digits)),
        }
    }

    /// Keeps digits, each as its character `0` to `9`, as an IMSI.
    ///
    /// Fails with `Length` (1) for fewer than 5 characters or more than 15, and else with `NotDigit` (2) and the place,
    /// from 0, of the first character that is no digit.
    pub fn from_ascii(characters: &[u8]) -> Result<Imsi, ImsiFault>
        ensures answer { result ≡ imsi_of_ascii characters.now }
        ensures kept { IfOk result (λ imsi. imsi ≡ digit_values characters.now) }
    {
        if characters.len() < MIN_IMSI_DIGITS || characters.len() > MAX_IMSI_DIGITS {
            return Err(ImsiFault::Length);
        }
        let mut first = FirstDigits::new();
        for at in 0..characters.len() {
            let character = characters[at];
            if !character.is_ascii_digit() {
                return Err(ImsiFault::NotDigit { at });
            }
            first.push(character - b'0');
        }
        Ok(Imsi::of_first(&first))
    }

    /// Keeps the digits that TBCD octets hold, two in each, as an IMSI. A filler is allowed only as the high nibble of
    /// the last octet.
    ///
    /// Fails with `Length` (1) for fewer than 3 octets or more than 8, then with `NotDigit` (2) and the place, from 0
    /// and low nibble first, of the first nibble over 9 other than that filler, and then with `Length` (1) for 16
    /// digits.
    pub fn from_tbcd(octets: &[u8]) -> Result<Imsi, ImsiFault>
        ensures answer { result ≡ imsi_of_tbcd octets.now }
        ensures kept { IfOk result (λ imsi. imsi ≡ without_filler (nibbles octets.now)) }
    {
        if octets.len() < MIN_IMSI_OCTETS || octets.len() > MAX_IMSI_OCTETS {
            return Err(ImsiFault::Length);
        }
        let nibbles = nibbles_of(octets);
        Imsi::from_nibbles(without_filler(&nibbles[..2 * octets.len()]))
    }

    /// The IMSI of which this is the [`number`](Imsi::number); None if it is the number of none. It takes three
    /// comparisons.
    pub fn from_number(number: u64) -> Option<Imsi>
        ensures imsi { IfSome result IsImsi }
        ensures number { IfSome result (λ imsi. imsi_number imsi ≡ number) }
        ensures none { IsNone result → IsNumberOfNone number }
    {
        let count = digit_count(number);
        if count < MIN_IMSI_DIGITS {
            return None;
        }
        if count > MAX_IMSI_DIGITS {
            return None;
        }
        if decimal_value(number) >= power_of_ten(count) {
            return None;
        }
        Some(Imsi { number })
    }

    // The IMSI of this number, which is known to be that of one.
    pub(crate) fn of_number(number: u64) -> Imsi
        requires imsi { IsImsi (digits_of_number number) }
        requires number { number ≡ imsi_number (digits_of_number number) }
        ensures { result ≡ digits_of_number number }
    {
        Imsi { number }
    }

    fn from_nibbles(nibbles: &[u8]) -> Result<Imsi, ImsiFault>
        requires least { 5 ≤ length nibbles.now }
        requires most { length nibbles.now ≤ 16 }
        ensures { result ≡ imsi_of_nibbles nibbles.now }
    {
        match first_over_nine(nibbles) {
            Some(at) => Err(ImsiFault::NotDigit { at }),
            None if nibbles.len() > MAX_IMSI_DIGITS => Err(ImsiFault::Length),
            None => Ok(Imsi::of_decimal(nibbles)),
        }
    }

    // The IMSI of these digits.
    pub(crate) fn of_decimal(digits: &[u8]) -> Imsi
        requires { IsImsi digits.now }
        ensures { result ≡ digits.now }
    {
        let mut first = FirstDigits::new();
        for digit in digits {
            first.push(*digit);
        }
        Imsi::of_first(&first)
    }

    // The IMSI of these digits, behind which there are no others.
    fn of_first(first: &FirstDigits) -> Imsi
        requires { IsImsi first.now }
        ensures { result ≡ first.now }
    {
        Imsi {
            number: first.number(),
        }
    }

    /// Its digits, read out of its number.
    pub fn digits(&self) -> ImsiDigits
        ensures same { result ≡ self.now }
        ensures imsi { IsImsi self.now }
    {
        ImsiDigits::of_value(digit_count(self.number), decimal_value(self.number))
    }

    /// Its number: how many digits it has in the highest octet, and their decimal value below. That of the IMSI
    /// 262010000000001 is `15 << 56 | 262010000000001`. Equal IMSIs have the same number.
    pub fn number(&self) -> u64
        ensures number { result ≡ imsi_number self.now }
        ensures imsi { IsImsi self.now }
    {
        self.number
    }
}

// How many digits the IMSI of a number has: the highest octet.
fn digit_count(number: u64) -> usize
    ensures { result ≡ number / 2 ^ 56 }
{
    (number >> VALUE_BITS) as usize
}

// The decimal value of the digits of the IMSI of a number: the bits below the highest octet.
fn decimal_value(number: u64) -> u64
    ensures { result ≡ number % 2 ^ 56 }
{
    number % (1 << VALUE_BITS)
}

// How many bits of the number of an IMSI are for the decimal value of its digits.
pub(crate) const VALUE_BITS: u32 = 56;

// 10 to the power of a count of digits of an IMSI: one read of a table.
fn power_of_ten(count: usize) -> u64
    requires { (5 ≤ count) × (count ≤ 15) }
    ensures { result ≡ 10 ^ count }
{
    POWERS_OF_TEN[count - MIN_IMSI_DIGITS]
}

// 10 to the power of each count of digits of an IMSI, from 5 to 15.
const POWERS_OF_TEN: [u64; 11] = [
    100_000,
    1_000_000,
    10_000_000,
    100_000_000,
    1_000_000_000,
    10_000_000_000,
    100_000_000_000,
    1_000_000_000_000,
    10_000_000_000_000,
    100_000_000_000_000,
    1_000_000_000_000_000,
];

// The nibbles of the octets, low nibble first, and 0 after them.
fn nibbles_of(octets: &[u8]) -> [u8; 16]
    requires { length octets.now ≤ 8 }
    ensures { take (2 * length octets.now) result ≡ nibbles octets.now }
{
    let mut nibbles = [0; 16];
    for at in 0..octets.len() {
        nibbles[2 * at] = octets[at] % 16;
        nibbles[2 * at + 1] = octets[at] / 16;
    }
    nibbles
}

// The nibbles without a filler in the last place.
fn without_filler(nibbles: &[u8]) -> &[u8]
    requires { 1 ≤ length nibbles.now }
    ensures { result.now ≡ without_filler nibbles.now }
{
    let last = nibbles.len() - 1;
    if nibbles[last] == FILLER {
        &nibbles[..last]
    } else {
        nibbles
    }
}

// The place of the first value that is no decimal digit.
fn first_over_nine(values: &[u8]) -> Option<usize>
    ensures first { result ≡ position (λ value. nat_lt 9 value) values.now }
    ensures none { IsNone result ↔ All (λ value. value ≤ 9) values.now }
{
    values.iter().position(|value| *value > 9)
}

impl PartialEq for Imsi {
    ghost eq = { pointwise nat_eq };

    ghost laws = { partial_equiv_from_equiv nat_list_eq_equiv };

    fn eq(&self, other: &Imsi) -> bool {
        self.number == other.number
    }
}

impl Eq for Imsi {
    ghost laws = { nat_list_eq_equiv };
}

impl PartialOrd for Imsi {
    ghost partial_cmp = { as_partial_cmp (slice_cmp nat_cmp) };

    ghost laws = { partial_order_from_agreeing_total (slice_cmp nat_cmp) nat_list_cmp_total (λ x y. refl) texts_ties };

    fn partial_cmp(&self, other: &Imsi) -> Option<Ordering> {
        Some(self.cmp(other))
    }
}

impl Ord for Imsi {
    ghost cmp = { slice_cmp nat_cmp };

    ghost total = { nat_list_cmp_total };

    ghost matches_partial_cmp = { λ x y. refl };

    ghost matches_eq = { texts_ties };

    fn cmp(&self, other: &Imsi) -> Ordering {
        self.digits().as_slice().cmp(other.digits().as_slice())
    }
}
