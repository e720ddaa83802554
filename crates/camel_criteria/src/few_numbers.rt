ghost use Rattle.std.specs.Prelude.{◌≡◌, ◌≤◌, IfSome, length, take};
ghost use Rattle.std.specs.List.{list_any};
ghost use Rattle.camel_tbcd.specs.Address.{octets};
ghost use Rattle.camel_criteria.specs.FewNumbers.{IsFew};
ghost use Rattle.camel_criteria.specs.Met.{number_matches};

use camel_tbcd::{Address, IsdnAddress, Profile};
use std::fmt;
use std::marker::Model;

// One to three listed numbers, kept in place. Contracts see them as a list.
//
// A place that is left holds the first number again. So a destination is compared with all three places, and how many
// numbers there are, which cannot be foreseen, makes no branch.
#[derive(Clone, Copy)]
pub(crate) struct FewNumbers {
    room: [IsdnAddress; MAX_IN_PLACE],
    len: u8,
}

// How many numbers are kept in place: with as many a criterion takes 32 octets.
const MAX_IN_PLACE: usize = 3;

impl Model for FewNumbers {
    ghost use Rattle.std.specs.Prelude.{ℕ, List, length, take};
    ghost use Rattle.std.proofs.Common.{sym};
    ghost use Rattle.camel_criteria.specs.FewNumbers.{IsFew, filled};

    ghost Value = { List (List ℕ) };

    ghost view = { λ a. take a.len a.room };

    ghost invariant = { λ a. IsFew a.room a.len };

    ghost inverse = { λ numbers. record { room = filled numbers; len = length numbers } };

    ghost inverse_ok = { λ a h i. record { room = sym h.full i; len = sym h.counted i } };
}

impl FewNumbers {
    // Keeps one to three numbers; None for another count.
    pub(crate) fn from_slice(numbers: &[IsdnAddress]) -> Option<FewNumbers>
        ensures { IfSome result (λ few. few ≡ numbers.now) }
    {
        match *numbers {
            [first] => Some(FewNumbers::of([first, first, first], 1)),
            [first, second] => Some(FewNumbers::of([first, second, first], 2)),
            [first, second, third] => Some(FewNumbers::of([first, second, third], 3)),
            _ => None,
        }
    }

    // Keeps the first `len` numbers of a room that is filled.
    fn of(room: [IsdnAddress; MAX_IN_PLACE], len: u8) -> FewNumbers
        requires { IsFew room len }
        ensures { result ≡ take len room }
    {
        FewNumbers { room, len }
    }

    // What stands for numbers: one of 16 digits `c`, which no numbering plan has.
    pub(crate) fn filler() -> FewNumbers {
        let number = IsdnAddress::from_bytes(&[0xee; 9]).unwrap();
        FewNumbers::of([number, number, number], 1)
    }

    // The numbers, in their order.
    pub(crate) fn as_slice(&self) -> &[IsdnAddress]
        ensures same { result.now ≡ self.now }
        ensures most { length self.now ≤ MAX_IN_PLACE }
    {
        &self.room[..usize::from(self.len)]
    }

    // Whether a destination begins with one of the numbers, under a profile. It is put into its callers, so that no
    // destination is written to memory for it.
    #[inline(always)]
    pub(crate) fn has_front_of(&self, destination: &Address, profile: Profile) -> bool
        ensures { result ≡ list_any (λ listed. number_matches profile listed (octets destination.now)) self.now }
    {
        self.room[0].is_front_of(destination, profile)
            | self.room[1].is_front_of(destination, profile)
            | self.room[2].is_front_of(destination, profile)
    }
}

impl fmt::Debug for FewNumbers {
    fn fmt<W: fmt::Write>(&self, f: &mut fmt::Formatter<W>) -> fmt::Result {
        f.debug_list().entries(self.as_slice()).finish()
    }
}
