ghost use Rattle.std.specs.Prelude.{◌≡◌, ◌≤◌, ◌<◌, length, IfOk};
ghost use Rattle.camel_ber.specs.Elements.{value_of, Answers, length_at};

use crate::fault::{Fault, FaultKind};

// The length at the front of octets that end at a place, and the octets behind it. None is the indefinite form.
#[tactic(auto, unfolding(crate::specs::Elements::length_at))]
pub(crate) fn read_length(bytes: &[u8], end: usize) -> Result<(Option<usize>, &[u8]), Fault>
    requires { length bytes.now ≤ end }
    ensures answer { Answers (λ read. (read.0, read.1.now)) result (length_at end bytes.now) }
    ensures shorter { IfOk result (λ read. length read.1.now < length bytes.now) }
{
    match bytes {
        [] => Err(Fault::of(FaultKind::PastEnd, bytes, end)),
        [first, rest @ ..] => {
            let first = *first as usize;
            if first < 128 {
                return Ok((Some(first), rest));
            }
            if first == 128 {
                return Ok((None, rest));
            }
            if first > 132 {
                return Err(Fault::of(FaultKind::LongLength, bytes, end));
            }
            let count = first - 128;
            if rest.len() < count {
                return Err(Fault::of(FaultKind::PastEnd, bytes, end));
            }
            let (octets, rest) = rest.split_at(count);
            Ok((Some(value(octets)), rest))
        }
    }
}

// The number of at most four octets.
fn value(octets: &[u8]) -> usize
    requires { length octets.now ≤ 4 }
    ensures { result ≡ value_of octets.now }
{
    match octets {
        [a] => *a as usize,
        [a, b] => *a as usize * 256 + *b as usize,
        [a, b, c] => (*a as usize * 256 + *b as usize) * 256 + *c as usize,
        [a, b, c, d] => {
            ((*a as usize * 256 + *b as usize) * 256 + *c as usize) * 256 + *d as usize
        }
        _ => 0,
    }
}
