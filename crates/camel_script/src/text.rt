//! What the texts of the fields of a script stand for.

ghost use Rattle.std.specs.Prelude.{◌≡◌, ◌≤◌, IfOk, IsTrue, length, take};
ghost use Rattle.std.specs.List.{list_all};
ghost use Rattle.std.specs.Result.{is_ok};
ghost use Rattle.hex.specs.Hex.{is_hex_digit};
ghost use Rattle.camel_reading.specs.Reading.{ReadsAs};
ghost use Rattle.camel_script.specs.Fields.{IsMemory, basic_service_of, call_address_of, call_type_of, cause_of_value};
ghost use Rattle.camel_script.specs.Fields.{decimal_of, imsi_of_text, is_digits, isdn_address_of, match_type_of};
ghost use Rattle.camel_script.specs.Fields.{number_of, octet_of, octets_of, is_forwarded_of};

pub(crate) mod lists;
pub(crate) mod parts;
pub(crate) mod record_fault;

use crate::text::record_fault::RecordFault;
use camel_criteria::{BasicService, CallType, Cause, MatchType, Refusal};
use camel_tbcd::{CallAddress, Imsi, IsdnAddress, MAX_ADDRESS_LENGTH};
use hex::FromHexError;
use std::alloc::Global;
use std::marker::Model;

/// The greatest number of digits of a decimal, leading zeros among them.
pub const MAX_DECIMAL_DIGITS: usize = 10;

/// The letter of a teleservice.
pub(crate) const TELESERVICE: u8 = b't';

/// The letter of a bearer service.
pub(crate) const BEARER_SERVICE: u8 = b'b';

/// Reads an IMSI: 5 to 15 characters `0` to `9`.
#[tactic(auto, unfolding(crate::specs::Fields::imsi_of_text))]
pub(crate) fn parse_imsi(text: &[u8]) -> Result<Imsi, RecordFault>
    ensures { result ≡ imsi_of_text text.now }
{
    match Imsi::from_ascii(text) {
        Ok(imsi) => Ok(imsi),
        Err(_) => Err(RecordFault::Number),
    }
}

/// Reads a decimal: 1 to 10 characters `0` to `9`, of a value not over the greatest.
#[tactic(auto, unfolding(crate::specs::Fields::decimal_of))]
pub fn parse_decimal(text: &[u8], greatest: u32) -> Result<u32, RecordFault>
    ensures value { result ≡ decimal_of greatest text.now }
    ensures range { IfOk result (λ value. value ≤ greatest) }
{
    if text.is_empty() || text.len() > MAX_DECIMAL_DIGITS || !is_digits(text) {
        return Err(RecordFault::Number);
    }
    let value = decimal_value(text);
    if value > u64::from(greatest) {
        return Err(RecordFault::Number);
    }
    Ok(value as u32)
}

/// Reads a decimal of value 0 to 255.
pub fn parse_small_decimal(text: &[u8]) -> Result<u8, RecordFault>
    ensures { result ≡ decimal_of 255 text.now }
{
    let value = parse_decimal(text, 255)?;
    Ok(value as u8)
}

/// The octets of an address, whose number is not checked yet.
#[derive(Drop)]
pub(crate) struct Octets {
    held: HeldOctets,
}

/// Octets, of which no more than an address may have take no memory.
#[derive(Drop)]
enum HeldOctets {
    Few {
        octets: [u8; MAX_ADDRESS_LENGTH],
        count: usize,
    },
    Many(Vec<u8>),
}

impl Model for Octets {
    ghost use Rattle.std.specs.Prelude.{ℕ, List};
    ghost use Rattle.camel_script.specs.Octets.{held_octets};

    ghost Value = { List ℕ };

    ghost view = { λ a. held_octets a.held };
}

impl Octets {
    fn as_slice(&self) -> &[u8]
        ensures { result.now ≡ self.now }
    {
        match &self.held {
            HeldOctets::Few { octets, count } => first_of(octets, *count),
            HeldOctets::Many(octets) => octets.as_slice(),
        }
    }
}

/// The first octets, so many as are counted, and all if they are fewer.
fn first_of(octets: &[u8], count: usize) -> &[u8]
    ensures { result.now ≡ take count octets.now }
{
    &octets[..count.min(octets.len())]
}

/// Reads the octets of an address: an even number of hexadecimal digits of either case, possibly none.
#[tactic(auto, unfolding(crate::specs::Fields::octets_of))]
pub(crate) fn parse_octets(alloc: Global, text: &[u8]) -> Result<Octets, RecordFault>
    ensures { ReadsAs IsMemory result (octets_of text.now) }
{
    let count = text.len() / 2;
    if count > MAX_ADDRESS_LENGTH {
        return parse_many_octets(alloc, text);
    }
    let mut octets = [0; MAX_ADDRESS_LENGTH];
    match hex::decode_to_slice(text, &mut octets[..count]) {
        Ok(()) => Ok(Octets {
            held: HeldOctets::Few { octets, count },
        }),
        Err(_) => Err(RecordFault::Hexadecimal),
    }
}

/// Reads more octets than an address may have, whose text still has to be hexadecimal.
#[tactic(auto, unfolding(crate::specs::Fields::octets_of))]
fn parse_many_octets(alloc: Global, text: &[u8]) -> Result<Octets, RecordFault>
    ensures { ReadsAs IsMemory result (octets_of text.now) }
{
    match hex::decode(alloc, text) {
        Ok(octets) => Ok(Octets {
            held: HeldOctets::Many(octets),
        }),
        Err(FromHexError::OutOfMemory) => Err(RecordFault::OutOfMemory),
        Err(_) => Err(RecordFault::Hexadecimal),
    }
}

/// Whether a text is read as octets: an even number of hexadecimal digits of either case, possibly none.
#[tactic(auto, using(crate::proofs::PartsLemmas::octets_are))]
pub fn is_octets(text: &[u8]) -> bool
    ensures { result ≡ is_ok (octets_of text.now) }
{
    text.len() % 2 == 0 && are_hex_digits(text)
}

fn are_hex_digits(text: &[u8]) -> bool
    ensures { result ≡ list_all is_hex_digit text.now }
{
    text.iter().all(|digit| is_hex_digit(*digit))
}

fn is_hex_digit(digit: u8) -> bool
    ensures { result ≡ is_hex_digit digit }
{
    digit.is_ascii_hexdigit()
}

/// Reads a basic service: `t` or `b`, then two hexadecimal digits.
#[tactic(auto, unfolding(crate::specs::Fields::basic_service_of))]
pub fn parse_basic_service(text: &[u8]) -> Result<BasicService, RecordFault>
    ensures { result ≡ basic_service_of text.now }
{
    let Some((letter, code)) = text.split_first() else {
        return Err(RecordFault::Word);
    };
    match *letter {
        TELESERVICE => Ok(BasicService::Tele(parse_octet(code)?)),
        BEARER_SERVICE => Ok(BasicService::Bearer(parse_octet(code)?)),
        _ => Err(RecordFault::Word),
    }
}

/// Reads one octet: two hexadecimal digits.
#[tactic(auto, unfolding(crate::specs::Fields::octet_of))]
fn parse_octet(text: &[u8]) -> Result<u8, RecordFault>
    ensures { result ≡ octet_of text.now }
{
    let mut octets = [0; 1];
    match hex::decode_to_slice(text, &mut octets) {
        Ok(()) => Ok(octets[0]),
        Err(_) => Err(RecordFault::Hexadecimal),
    }
}

/// Reads whether a call is forwarded: `f` or `n`.
#[tactic(auto, unfolding(crate::specs::Fields::is_forwarded_of))]
pub(crate) fn parse_forwarded(text: &[u8]) -> Result<bool, RecordFault>
    ensures { result ≡ is_forwarded_of text.now }
{
    match text {
        b"f" => Ok(true),
        b"n" => Ok(false),
        _ => Err(RecordFault::Word),
    }
}

/// Reads the call type criterion of an item: `f` or `n`, or empty for none.
#[tactic(auto, unfolding(crate::specs::Fields::call_type_of))]
pub(crate) fn parse_call_type(text: &[u8]) -> Result<Option<CallType>, RecordFault>
    ensures { result ≡ call_type_of text.now }
{
    if text.is_empty() {
        return Ok(None);
    }
    Ok(Some(if parse_forwarded(text)? {
        CallType::Forwarded
    } else {
        CallType::NotForwarded
    }))
}

/// Reads the match type of a destination number criterion: `e` or `i`.
#[tactic(auto, unfolding(crate::specs::Fields::match_type_of))]
pub fn parse_match_type(text: &[u8]) -> Result<MatchType, RecordFault>
    ensures { result ≡ match_type_of text.now }
{
    match text {
        b"e" => Ok(MatchType::Enabling),
        b"i" => Ok(MatchType::Inhibiting),
        _ => Err(RecordFault::Word),
    }
}

/// The cause of a call of this value; over 127 it is refused.
#[tactic(auto, unfolding(crate::specs::Fields::cause_of_value))]
pub(crate) fn make_cause(value: u8) -> Result<Cause, RecordFault>
    ensures { result ≡ cause_of_value value }
{
    match Cause::new(value) {
        Some(cause) => Ok(cause),
        None => Err(RecordFault::Refused(Refusal::UnexpectedDataValue)),
    }
}

/// The gsmSCF address of these octets, 1 to 9; else it is refused.
#[tactic(auto, unfolding(crate::specs::Fields::isdn_address_of))]
pub(crate) fn make_isdn_address(octets: &Octets) -> Result<IsdnAddress, RecordFault>
    ensures { result ≡ isdn_address_of octets.now }
{
    match IsdnAddress::from_bytes(octets.as_slice()) {
        Ok(address) => Ok(address),
        Err(_) => Err(RecordFault::Refused(Refusal::UnexpectedDataValue)),
    }
}

/// The destination of these octets, 1 to 20; else it is refused.
#[tactic(auto, unfolding(crate::specs::Fields::call_address_of))]
pub(crate) fn make_call_address(octets: &Octets) -> Result<CallAddress, RecordFault>
    ensures { result ≡ call_address_of octets.now }
{
    match CallAddress::from_bytes(octets.as_slice()) {
        Ok(address) => Ok(address),
        Err(_) => Err(RecordFault::Refused(Refusal::UnexpectedDataValue)),
    }
}

/// Whether the characters are only `0` to `9`.
fn is_digits(text: &[u8]) -> bool
    ensures { result ≡ is_digits text.now }
{
    text.iter().all(|character| character.is_ascii_digit())
}

/// The number that the digits stand for.
fn decimal_value(text: &[u8]) -> u64
    requires digits { IsTrue (is_digits text.now) }
    requires few { length text.now ≤ 10 }
    ensures { result ≡ number_of text.now }
{
    let mut value = 0u64;
    for character in text {
        value = value * 10 + u64::from(*character - b'0');
    }
    value
}
