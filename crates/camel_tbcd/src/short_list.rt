ghost use Rattle.std.specs.Prelude.{◌≡◌, ◌<◌, ◌≤◌, length, nat_eq};
ghost use Rattle.std.specs.Cmp.{partial_equiv_from_equiv};
ghost use Rattle.std.specs.Cmp.Lexicographic.{nat_list_eq_equiv, pointwise};
ghost use Rattle.camel_tbcd.specs.AddressString.{room_with};

use std::marker::Model;

// At most `MOST` octets or digits, which contracts see as a list. Two are equal if their items are.
//
// They are kept in place, so that a list of them is `Copy` and takes no memory. `MOST` is below 256, so that their
// count takes one octet.
#[derive(Clone, Copy, Debug)]
pub(crate) struct ShortList<const MOST: usize> {
    // The items, and `FILL` from `len` on, so that equal lists have equal fields.
    room: [u8; MOST],
    len: u8,
}

// Two fillers of TBCD digits: so behind the digits of an address there is always one.
const FILL: u8 = 255;

impl<const MOST: usize> Model for ShortList<MOST> {
    ghost use Rattle.std.specs.Prelude.{ℕ, List, length, take};
    ghost use Rattle.std.proofs.Common.{sym};
    ghost use Rattle.camel_tbcd.specs.AddressString.{IsKept, length-kept, room_with};

    ghost Value = { List ℕ };

    ghost view = { λ a. take a.len a.room };

    ghost invariant = { λ a. IsKept MOST a.room a.len };

    ghost inverse = { λ items. record { room = room_with MOST items; len = length items } };

    ghost inverse_ok = { λ a h i. record { room = sym h.fill i; len = length-kept MOST a.room a.len h.full h.fits i } };
}

impl<const MOST: usize> ShortList<MOST> {
    // Keeps the items.
    pub(crate) fn from_slice(items: &[u8]) -> Self
        requires fits { length items.now ≤ MOST }
        requires counted { MOST < 256 }
        ensures { result ≡ items.now }
    {
        let mut room = [FILL; MOST];
        room[..items.len()].copy_from_slice(items);
        ShortList {
            room,
            len: items.len() as u8,
        }
    }

    // The items, in their order.
    pub(crate) fn as_slice(&self) -> &[u8]
        ensures { result.now ≡ self.now }
    {
        &self.room[..usize::from(self.len)]
    }

    // The items, and `FILL` after them up to the end of the room.
    pub(crate) fn room(&self) -> &[u8; MOST]
        ensures { result.now ≡ room_with MOST self.now }
    {
        &self.room
    }
}

impl<const MOST: usize> PartialEq for ShortList<MOST> {
    ghost eq = { pointwise nat_eq };

    ghost laws = { partial_equiv_from_equiv nat_list_eq_equiv };

    fn eq(&self, other: &Self) -> bool {
        self.as_slice() == other.as_slice()
    }
}

impl<const MOST: usize> Eq for ShortList<MOST> {
    ghost laws = { nat_list_eq_equiv };
}
