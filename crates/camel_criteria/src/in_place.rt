ghost use Rattle.std.specs.Prelude.{◌≡◌, ◌<◌, ◌≤◌, [], length};

use std::fmt;
use std::marker::Model;

// At most `MOST` items, kept in place, so that a list of them takes no memory of its own. Contracts see the list.
//
// `MOST` is below 256, so that the count takes one octet.
#[derive(Drop)]
pub(crate) struct InPlace<T, const MOST: usize> {
    // The items, and anything from `len` on.
    room: [T; MOST],
    len: u8,
}

impl<T, const MOST: usize> Model for InPlace<T, MOST> {
    ghost use Rattle.std.specs.Prelude.{◌≡◌, ◌≤◌, List, length, take};

    ghost Value = { List T };

    ghost view = { λ a. take a.len a.room };

    ghost invariant = { λ a. (length a.room ≡ MOST) × (a.len ≤ MOST) };
}

impl<T: Copy, const MOST: usize> InPlace<T, MOST> {
    // No items, with `blank` in each place.
    #[inline]
    pub(crate) fn empty(blank: T) -> Self
        ensures { result ≡ [] }
    {
        InPlace {
            room: [blank; MOST],
            len: 0,
        }
    }

    // Keeps the items, with `blank` in the places that are left.
    pub(crate) fn from_slice(items: &[T], blank: T) -> Self
        requires fits { length items.now ≤ MOST }
        requires counted { MOST < 256 }
        ensures { result ≡ items.now }
    {
        let mut room = [blank; MOST];
        room[..items.len()].copy_from_slice(items);
        InPlace {
            room,
            len: items.len() as u8,
        }
    }

    // The items, in their order.
    pub(crate) fn as_slice(&self) -> &[T]
        ensures same { result.now ≡ self.now }
        ensures most { length self.now ≤ MOST }
    {
        &self.room[..usize::from(self.len)]
    }

    // A copy of these items.
    pub(crate) fn copy(&self) -> Self
        ensures { result ≡ self.now }
    {
        InPlace {
            room: self.room,
            len: self.len,
        }
    }
}

impl<T: Copy + fmt::Debug, const MOST: usize> fmt::Debug for InPlace<T, MOST> {
    fn fmt<W: fmt::Write>(&self, f: &mut fmt::Formatter<W>) -> fmt::Result {
        f.debug_list().entries(self.as_slice()).finish()
    }
}
