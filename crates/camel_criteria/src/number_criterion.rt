ghost use Rattle.std.specs.Prelude.{◌≡◌, ◌≤◌, [], IfErr, length, slice_get};
ghost use Rattle.std.specs.List.{list_all};
ghost use Rattle.std.specs.Option.{option_map};
ghost use Rattle.camel_tbcd.specs.Address.{octets};
ghost use Rattle.camel_criteria.specs.Criteria.{is_length, number_criterion_of};
ghost use Rattle.camel_criteria.specs.Met.{number_met};
ghost use Rattle.camel_criteria.specs.Refusal.{MakesOf};

use crate::criterion_lists::CriterionLists;
use crate::{MatchType, Refusal};
use camel_tbcd::{Address, IsdnAddress, Profile};
use std::alloc::{AllocError, Global};
use std::fmt;
use std::marker::Model;
use std::mem::size_of;

/// The greatest number of numbers of a destination number criterion (TS 29.002).
pub const MAX_NUMBERS: usize = 10;

/// The greatest number of lengths of a destination number criterion (TS 29.002).
pub const MAX_LENGTHS: usize = 3;

/// A destination number criterion (DestinationNumberCriteria of TS 29.002): a match type, listed numbers and
/// listed lengths.
///
/// It takes 32 octets, and no memory apart from them if it lists one to three numbers and no length, or up to two
/// numbers with lengths; else one block.
#[derive(Drop)]
pub struct NumberCriterion {
    lists: CriterionLists,
}

const _: () = prove!(size_of::<NumberCriterion>() == 32);

impl Model for NumberCriterion {
    ghost use Rattle.camel_criteria.specs.Criteria.{NumberCriterionData};
    ghost use Rattle.camel_criteria.specs.CriterionLists.{criterion_of};

    ghost Value = { NumberCriterionData };

    ghost view = { λ a. criterion_of a.lists };
}

impl NumberCriterion {
    /// A criterion of these lists. An empty slice is an absent list.
    ///
    /// Fails with `DataMissing` (35) if both lists are absent, with `UnexpectedDataValue` (36) for more than 10
    /// numbers, more than 3 lengths or a length outside 1 to 15, and with `OutOfMemory` (102) if memory was refused.
    /// Nothing was made then.
    pub fn new(
        alloc: Global,
        match_type: MatchType,
        numbers: &[IsdnAddress],
        lengths: &[u8],
    ) -> Result<NumberCriterion, Refusal>
        ensures made { MakesOf result (number_criterion_of match_type numbers.now lengths.now) }
        ensures refused { IfErr (number_criterion_of match_type numbers.now lengths.now) (λ why. result ≡ Err why) }
    {
        if numbers.is_empty() && lengths.is_empty() {
            return Err(Refusal::DataMissing);
        }
        if numbers.len() > MAX_NUMBERS || lengths.len() > MAX_LENGTHS || !are_lengths(lengths) {
            return Err(Refusal::UnexpectedDataValue);
        }
        Ok(NumberCriterion {
            lists: CriterionLists::from_slices(alloc, match_type, numbers, lengths)?,
        })
    }

    // What stands for a criterion.
    pub(crate) fn filler() -> NumberCriterion {
        NumberCriterion {
            lists: CriterionLists::filler(),
        }
    }

    /// Whether the destination is to be listed or not.
    pub fn match_type(&self) -> MatchType
        ensures { result ≡ self.now.match_type }
    {
        self.lists.match_type()
    }

    /// The listed numbers, up to 10, in the order received.
    pub fn numbers(&self) -> &[IsdnAddress]
        ensures same { result.now ≡ self.now.numbers }
        ensures most { length self.now.numbers ≤ MAX_NUMBERS }
    {
        self.lists.numbers()
    }

    /// The listed number at a place, from 0, borrowed; None from their count on.
    pub fn number(&self, at: usize) -> Option<Address<'_>>
        ensures { option_map octets result ≡ slice_get self.now.numbers at }
    {
        match self.lists.numbers().get(at) {
            Some(number) => Some(number.lend()),
            None => None,
        }
    }

    // Whether a destination meets it, under a profile.
    #[inline(always)]
    pub(crate) fn is_met_by(&self, destination: &Address, profile: Profile) -> bool
        ensures { result ≡ number_met profile self.now (octets destination.now) }
    {
        self.lists.is_met_by(destination, profile)
    }

    /// The listed lengths, up to 3, in digits, in the order received.
    pub fn lengths(&self) -> &[u8]
        ensures same { result.now ≡ self.now.lengths }
        ensures most { length self.now.lengths ≤ MAX_LENGTHS }
    {
        self.lists.lengths()
    }
}

fn are_lengths(lengths: &[u8]) -> bool
    ensures { result ≡ list_all is_length lengths.now }
{
    lengths.iter().all(|length| 1 <= *length && *length <= 15)
}

impl Clone for NumberCriterion {
    ghost use Rattle.std.specs.Prelude.{◌≡◌};

    ghost is_clone = { λ old new. new ≡ old };

    #[inline]
    fn clone(&self) -> Result<NumberCriterion, AllocError> {
        Ok(NumberCriterion {
            lists: self.lists.copy()?,
        })
    }
}

impl fmt::Debug for NumberCriterion {
    fn fmt<W: fmt::Write>(&self, f: &mut fmt::Formatter<W>) -> fmt::Result {
        f.debug_struct("NumberCriterion")
            .field("match_type", &self.match_type())
            .field("numbers", &self.numbers())
            .field("lengths", &self.lengths())
            .finish()
    }
}
