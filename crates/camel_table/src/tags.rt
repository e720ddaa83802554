//! A tag says of an entry, in one octet, which IMSIs it isn't of. The tags of a bucket lie beside each other, so that
//! mostly one key is compared, and one record read.

ghost use Rattle.std.specs.Prelude.{◌≡◌, ◌==◌, not, slice_set, if◌then◌else◌};
ghost use Rattle.std.specs.Int.{trailing_zeros, w64};
ghost use Rattle.std.specs.List.{prefix_len};
ghost use Rattle.camel_table.specs.Buckets.{tag_of};

use camel_tbcd::Imsi;
use std::marker::Model;
use std::simd::prelude::*;

/// So many entries of a bucket have tags, its first ones.
pub(crate) const TAGS: usize = 16;

/// The tag of an IMSI: the lowest octet of its number, in which the IMSIs of an operator differ the most.
#[inline(always)]
pub(crate) fn tag_of(imsi: &Imsi) -> u8
    ensures { result ≡ tag_of imsi.now }
{
    (imsi.number() % 256) as u8
}

/// The tags of the first entries of a bucket, in their order. Of a place that has no entry, any octet.
#[derive(Debug, Drop)]
pub(crate) struct Tags {
    octets: [u8; 16],
}

impl Model for Tags {
    ghost use Rattle.std.specs.Prelude.{◌≡◌, ℕ, List, length};

    ghost Value = { List ℕ };

    ghost view = { λ a. a.octets };

    ghost invariant = { λ a. length a.octets ≡ 16 };
}

impl Tags {
    /// The tags of no entries.
    pub(crate) fn none() -> Tags {
        Tags { octets: [0; 16] }
    }

    /// The same tags.
    pub(crate) fn copy(&self) -> Tags
        ensures { result ≡ self.now }
    {
        Tags {
            octets: self.octets,
        }
    }

    /// The first place that has this tag, or else 16.
    // All places are compared at once, and no branch is made of what cannot be foreseen.
    #[inline(always)]
    pub(crate) fn first(&self, tag: u8) -> usize
        ensures { result ≡ prefix_len (λ other. not (other == tag)) self.now }
    {
        let equal = u8x16::from_array(self.octets).simd_eq(u8x16::splat(tag));
        lowest(equal.to_bitmask())
    }

    /// Writes the tag of a place, if that has one.
    pub(crate) fn set(&mut self, at: usize, tag: u8)
        ensures { self.new ≡ slice_set self.old at tag }
    {
        if at < TAGS {
            self.octets[at] = tag;
        }
    }
}

/// The lowest place whose bit is set, or else 16.
#[inline(always)]
fn lowest(places: u64) -> usize
    ensures { result ≡ (if places == 0 then 16 else trailing_zeros w64 places) }
{
    if places == 0 {
        TAGS
    } else {
        places.trailing_zeros() as usize
    }
}
