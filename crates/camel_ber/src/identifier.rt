ghost use Rattle.std.specs.Prelude.{◌≡◌, ◌≤◌, ◌<◌, ◌++◌, length, IfOk};
ghost use Rattle.camel_ber.specs.Elements.{Answers, continuation_at, identifier_at, is_tag_number};

use crate::fault::{Fault, FaultKind};

// The identifier octets at the front of octets that end at a place, and the octets behind them.
#[tactic(auto, unfolding(crate::specs::Elements::identifier_at))]
pub(crate) fn read_identifier(bytes: &[u8], end: usize) -> Result<(&[u8], &[u8]), Fault>
    requires { length bytes.now ≤ end }
    ensures answer { Answers (λ read. (read.0.now, read.1.now)) result (identifier_at end bytes.now) }
    ensures some { IfOk result (λ read. 0 < length read.0.now) }
    ensures shorter { IfOk result (λ read. length read.1.now < length bytes.now) }
{
    if bytes.len() == 0 {
        return Err(Fault::of(FaultKind::PastEnd, bytes, end));
    }
    let (first, rest) = bytes.split_at(1);
    if first[0] == 0 {
        return Err(Fault::of(FaultKind::LoneEndOfContents, bytes, end));
    }
    if first[0] % 32 != 31 {
        return Ok((first, rest));
    }
    let (more, _) = read_continuation(rest, Fault::of(FaultKind::PastEnd, bytes, end))?;
    if !is_tag_number(more) {
        return Err(Fault::of(FaultKind::TagNumber, bytes, end));
    }
    Ok(bytes.split_at(1 + more.len()))
}

// The identifier octets behind the first: up to the first below 128. The fault is of octets that have none below 128.
fn read_continuation(bytes: &[u8], endless: Fault) -> Result<(&[u8], &[u8]), Fault>
    ensures answer { Answers (λ read. (read.0.now, read.1.now)) result (continuation_at endless bytes.now) }
    ensures parts { IfOk result (λ read. bytes.now ≡ read.0.now ++ read.1.now) }
{
    for (at, octet) in bytes.iter().enumerate() {
        if *octet < 128 {
            return Ok(bytes.split_at(at + 1));
        }
    }
    Err(endless)
}

// Whether a tag number needs these octets behind the first.
fn is_tag_number(octets: &[u8]) -> bool
    ensures { result ≡ is_tag_number octets.now }
{
    match octets {
        [] => false,
        [octet] => *octet >= 31,
        [first, ..] => *first != 128,
    }
}
