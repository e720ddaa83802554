ghost use Rattle.std.specs.Prelude.{◌≡◌, ◌≤◌, ◌<◌, ◌+◌, ℕ, suc, List, length, slice_index, Result, Ok, IfOk};
ghost use Rattle.camel_ber.specs.declared.fault.Fault.{Fault};
ghost use Rattle.camel_ber.specs.Elements.{ElementData, IsSeries, Answers, ElementReader, EndReader, Gives, content_of};
ghost use Rattle.camel_ber.specs.Elements.{end_by, element_at, elements, octets_data, place_of, series_of, view, views};

use crate::fault::{Fault, FaultKind, ReadError};
use crate::identifier::read_identifier;
use crate::length::read_length;
use crate::octets::Octets;
use std::alloc::Global;

/// An element of BER, borrowed: its identifier octets, its contents octets, and the place at which it begins.
///
/// The contents of the indefinite form end before the two octets 0 that end them.
#[derive(Clone, Copy, Debug)]
pub struct Element<'a> {
    /// The identifier octets, at least one (X.690, 8.1.2): the class in bits 8 and 7 of the first, in bit 6 whether the
    /// contents are elements, and the tag number.
    pub identifier: &'a [u8],
    /// The contents octets, possibly none.
    pub content: Octets<'a>,
    /// The place of the first identifier octet, as a number of octets of the argument.
    pub place: usize,
}

/// The elements that octets are, all of them, one behind the other. The octets are borrowed, and not copied.
///
/// Indefinite forms may be `depth` deep within one another: with 0 there may be none. A length has at most four octets
/// behind its first. Contents of the definite form are not looked at. It takes memory for the list, its steps are at
/// most a constant times the number of octets, and at most `depth` calls are within one another.
///
/// Fails with `Memory` if there is none for the list, and with the first `Fault` from left to right. Nothing is kept.
pub fn series<'a>(
    alloc: Global,
    octets: Octets<'a>,
    depth: u32,
) -> Result<Vec<Element<'a>>, ReadError>
    // What is read is spelled so.
    ensures found { IfOk result (λ read.
        IsSeries depth (elements (views read.items)) (octets_data octets.entry).bytes) }
    // What is spelled so is read, unless memory runs out.
    ensures only { (es : List ElementData) → IsSeries depth es (octets_data octets.entry).bytes
        → Gives (λ read. elements (views read.items)) result (Ok es) }
    // Octets spell at most one list of elements.
    ensures one { (es fs : List ElementData) → IsSeries depth es (octets_data octets.entry).bytes
        → IsSeries depth fs (octets_data octets.entry).bytes → es ≡ fs }
    // Where each element is, or which fault it is: the first from left to right.
    ensures exact { Gives (λ read. views read.items) result (series_of depth (octets_data octets.entry)) }
{
    all_elements(alloc, octets.bytes, octets.end, depth)
}

// The elements that octets are which end at a place.
fn all_elements<'a>(
    alloc: Global,
    bytes: &'a [u8],
    end: usize,
    depth: u32,
) -> Result<Vec<Element<'a>>, ReadError>
    requires { length bytes.now ≤ end }
    ensures { Gives (λ read. views read.items) result (series_of depth (record { bytes = bytes.now; end = end })) }
{
    let mut elements = Vec::with_capacity(alloc, 8)?;
    let mut rest = bytes;
    while rest.len() > 0 {
        let (element, after) = next_element(rest, end, depth)?;
        elements.push(element)?;
        rest = after;
    }
    Ok(elements)
}

// The element at the front of octets that end at a place, and the octets behind it.
#[cycle(nested)]
fn next_element(bytes: &[u8], end: usize, depth: u32) -> Result<(Element<'_>, &[u8]), Fault>
    requires { length bytes.now ≤ end }
    ensures answer { Answers (λ read. (view read.0, read.1.now)) result (element_at end depth bytes.now) }
    ensures shorter { IfOk result (λ read. length read.1.now < length bytes.now) }
{
    let (identifier, rest) = read_identifier(bytes, end)?;
    let (len, rest) = read_length(rest, end)?;
    let place = end - bytes.len();
    match len {
        Some(len) => definite(identifier, place, rest, end, len),
        None => {
            if identifier[0] / 32 % 2 != 1 {
                return Err(Fault::of(FaultKind::IndefinitePrimitive, rest, end));
            }
            if depth == 0 {
                return Err(Fault::of(FaultKind::TooDeep, rest, end));
            }
            let after = after_end(rest, end, depth - 1)?;
            let behind = after.len() + 2;
            let (content, _) = rest.split_at(rest.len() - behind);
            let content = Octets {
                bytes: content,
                end: end - behind,
            };
            Ok((
                Element {
                    identifier,
                    content,
                    place,
                },
                after,
            ))
        }
    }
}

// The element of an identifier at a place, with so many contents octets at the front of octets that end at a place, and
// the octets behind it.
fn definite<'a>(
    identifier: &'a [u8],
    place: usize,
    rest: &'a [u8],
    end: usize,
    len: usize,
) -> Result<(Element<'a>, &'a [u8]), Fault>
    requires { length rest.now ≤ end }
    ensures answer { (ends : EndReader)
        → Answers (λ read. (view read.0, read.1.now)) result
        (content_of end ends place identifier.now (Some len) rest.now) }
    ensures shorter { IfOk result (λ read. length read.1.now ≤ length rest.now) }
{
    if rest.len() < len {
        return Err(Fault::of(FaultKind::PastEnd, rest, end));
    }
    let (content, after) = rest.split_at(len);
    let content = Octets {
        bytes: content,
        end: end - after.len(),
    };
    Ok((
        Element {
            identifier,
            content,
            place,
        },
        after,
    ))
}

// The octets behind an end of contents, which is behind whole elements.
#[cycle(nested)]
fn after_end(bytes: &[u8], end: usize, depth: u32) -> Result<&[u8], Fault>
    requires { length bytes.now ≤ end }
    ensures answer { Answers (λ read. read.now) result
        (end_by end (element_at end depth) (length bytes.now) bytes.now) }
    ensures shorter { IfOk result (λ read. length read.now + 2 ≤ length bytes.now) }
{
    let mut rest = bytes;
    while rest.len() > 0 {
        if rest[0] == 0 {
            return after_zero(rest, end);
        }
        let (_, after) = next_element(rest, end, depth)?;
        rest = after;
    }
    Err(Fault::of(FaultKind::PastEnd, rest, end))
}

// The octets behind an end of contents, of which the first octet was seen.
#[tactic(auto, unfolding(crate::specs::Elements::end_by))]
fn after_zero(bytes: &[u8], end: usize) -> Result<&[u8], Fault>
    requires within { length bytes.now ≤ end }
    requires some { 0 < length bytes.now }
    requires zero { slice_index bytes.now 0 ≡ 0 }
    ensures answer { (one : ElementReader) (fuel : ℕ)
        → Answers (λ read. read.now) result (end_by end one (suc fuel) bytes.now) }
    ensures shorter { IfOk result (λ read. length read.now + 2 ≡ length bytes.now) }
{
    match bytes {
        [_, 0, after @ ..] => Ok(after),
        [_, _, ..] => Err(Fault::of(FaultKind::LoneEndOfContents, bytes, end)),
        _ => Err(Fault::of(FaultKind::PastEnd, bytes, end)),
    }
}
