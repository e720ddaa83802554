ghost use Rattle.std.specs.Prelude.{◌≡◌, ◌==◌, ◌<◌, ◌≤◌, [], IfOk, length};
ghost use Rattle.std.specs.List.{list_any};
ghost use Rattle.camel_tbcd.specs.Address.{octets};
ghost use Rattle.camel_criteria.specs.CriterionLists.{criterion_of};
ghost use Rattle.camel_criteria.specs.Met.{number_matches, number_met};

use crate::few_numbers::FewNumbers;
use crate::in_place::InPlace;
use crate::{MAX_LENGTHS, MAX_NUMBERS, MatchType};
use camel_tbcd::{Address, IsdnAddress, Profile};
use std::alloc::{AllocError, Global};
use std::marker::Model;

// The lists of a destination number criterion, with its match type. Lists that are short are kept in place, so that
// they are read with the criterion: one to three numbers and no length, as most criteria list, or up to two numbers
// with lengths. Others are kept apart from it, in one block.
#[derive(Drop)]
pub(crate) enum CriterionLists {
    FewEnabling(FewNumbers),
    FewInhibiting(FewNumbers),
    Short(Lists<MOST_WITH_LENGTHS>),
    Apart(Box<Lists<MAX_NUMBERS>>),
}

// How many numbers are kept in place beside lengths: with as many a criterion takes 32 octets.
const MOST_WITH_LENGTHS: usize = 2;

// The lists of a criterion of at most `MOST` numbers.
#[derive(Drop)]
pub(crate) struct Lists<const MOST: usize> {
    match_type: MatchType,
    numbers: InPlace<IsdnAddress, MOST>,
    lengths: InPlace<u8, MAX_LENGTHS>,
}

impl<const MOST: usize> Model for Lists<MOST> {
    ghost use Rattle.camel_criteria.specs.Criteria.{NumberCriterionData};

    ghost Value = { NumberCriterionData };

    ghost view = { λ a. record { match_type = a.match_type; numbers = a.numbers; lengths = a.lengths } };
}

impl<const MOST: usize> Lists<MOST> {
    // Keeps the lists.
    fn from_slices(match_type: MatchType, numbers: &[IsdnAddress], lengths: &[u8]) -> Self
        requires numbers { length numbers.now ≤ MOST }
        requires lengths { length lengths.now ≤ MAX_LENGTHS }
        requires counted { MOST < 256 }
        ensures { result ≡ record { match_type = match_type; numbers = numbers.now; lengths = lengths.now } }
    {
        Lists {
            match_type,
            numbers: InPlace::from_slice(numbers, IsdnAddress::from_bytes(&[0]).unwrap()),
            lengths: InPlace::from_slice(lengths, 0),
        }
    }

    // Whether a destination meets the criterion of these lists, under a profile. Few criteria are kept so: this is a
    // call of its own, and takes the destination by value, so that a decision by few numbers writes no destination to
    // memory.
    #[inline(never)]
    fn is_met_by(&self, destination: Address, profile: Profile) -> bool
        ensures { result ≡ number_met profile self.now (octets destination.entry) }
    {
        let is_listed = has_front_of(self.numbers.as_slice(), &destination, profile)
            | has_length(self.lengths.as_slice(), destination.digits().len());
        match self.match_type {
            MatchType::Enabling => is_listed,
            MatchType::Inhibiting => !is_listed,
        }
    }

    fn copy(&self) -> Self
        ensures { result ≡ self.now }
    {
        Lists {
            match_type: self.match_type,
            numbers: self.numbers.copy(),
            lengths: self.lengths.copy(),
        }
    }
}

impl<const MOST: usize> Clone for Lists<MOST> {
    ghost use Rattle.std.specs.Prelude.{◌≡◌};

    ghost is_clone = { λ old new. new ≡ old };

    fn clone(&self) -> Result<Self, AllocError> {
        Ok(self.copy())
    }
}

impl CriterionLists {
    // Keeps the lists.
    pub(crate) fn from_slices(
        alloc: Global,
        match_type: MatchType,
        numbers: &[IsdnAddress],
        lengths: &[u8],
    ) -> Result<CriterionLists, AllocError>
        requires numbers { length numbers.now ≤ MAX_NUMBERS }
        requires lengths { length lengths.now ≤ MAX_LENGTHS }
        ensures { IfOk result (λ lists. criterion_of lists
            ≡ record { match_type = match_type; numbers = numbers.now; lengths = lengths.now }) }
    {
        Ok(match FewNumbers::from_slice(numbers) {
            Some(few) if lengths.is_empty() => CriterionLists::few(match_type, few),
            _ if numbers.len() <= MOST_WITH_LENGTHS => {
                CriterionLists::Short(Lists::from_slices(match_type, numbers, lengths))
            }
            _ => {
                let lists = Lists::from_slices(match_type, numbers, lengths);
                CriterionLists::Apart(Box::new(alloc, lists)?)
            }
        })
    }

    fn few(match_type: MatchType, numbers: FewNumbers) -> CriterionLists
        ensures { criterion_of result ≡ record { match_type = match_type; numbers = numbers; lengths = [] } }
    {
        match match_type {
            MatchType::Enabling => CriterionLists::FewEnabling(numbers),
            MatchType::Inhibiting => CriterionLists::FewInhibiting(numbers),
        }
    }

    // What stands for lists: one number is inhibited, with which hardly a destination begins.
    pub(crate) fn filler() -> CriterionLists {
        CriterionLists::FewInhibiting(FewNumbers::filler())
    }

    pub(crate) fn match_type(&self) -> MatchType
        ensures { result ≡ (criterion_of self.now).match_type }
    {
        match self {
            CriterionLists::FewEnabling(_) => MatchType::Enabling,
            CriterionLists::FewInhibiting(_) => MatchType::Inhibiting,
            CriterionLists::Short(lists) => lists.match_type,
            CriterionLists::Apart(lists) => lists.match_type,
        }
    }

    pub(crate) fn numbers(&self) -> &[IsdnAddress]
        ensures same { result.now ≡ (criterion_of self.now).numbers }
        ensures most { length (criterion_of self.now).numbers ≤ MAX_NUMBERS }
    {
        match self {
            CriterionLists::FewEnabling(numbers) | CriterionLists::FewInhibiting(numbers) => {
                numbers.as_slice()
            }
            CriterionLists::Short(lists) => lists.numbers.as_slice(),
            CriterionLists::Apart(lists) => lists.numbers.as_slice(),
        }
    }

    pub(crate) fn lengths(&self) -> &[u8]
        ensures same { result.now ≡ (criterion_of self.now).lengths }
        ensures most { length (criterion_of self.now).lengths ≤ MAX_LENGTHS }
    {
        match self {
            CriterionLists::FewEnabling(_) | CriterionLists::FewInhibiting(_) => &[],
            CriterionLists::Short(lists) => lists.lengths.as_slice(),
            CriterionLists::Apart(lists) => lists.lengths.as_slice(),
        }
    }

    // Whether a destination meets the criterion of these lists, under a profile. Each way of keeping them has its own
    // comparison, so that the most frequent one has no test of the others. Few numbers are compared with what is asked
    // of them, since neither that nor which of them agrees can be foreseen: one branch is left of both, for the answer.
    #[inline(always)]
    pub(crate) fn is_met_by(&self, destination: &Address, profile: Profile) -> bool
        ensures { result ≡ number_met profile (criterion_of self.now) (octets destination.now) }
    {
        match self {
            CriterionLists::FewEnabling(numbers) | CriterionLists::FewInhibiting(numbers) => {
                let is_enabling = matches!(self, CriterionLists::FewEnabling(_));
                numbers.has_front_of(destination, profile) == is_enabling
            }
            CriterionLists::Short(lists) => lists.is_met_by(destination.remake(), profile),
            CriterionLists::Apart(lists) => lists.is_met_by(destination.remake(), profile),
        }
    }

    #[inline]
    pub(crate) fn copy(&self) -> Result<CriterionLists, AllocError>
        ensures { IfOk result (λ copied. criterion_of copied ≡ criterion_of self.now) }
    {
        Ok(match self {
            CriterionLists::FewEnabling(numbers) => CriterionLists::FewEnabling(*numbers),
            CriterionLists::FewInhibiting(numbers) => CriterionLists::FewInhibiting(*numbers),
            CriterionLists::Short(lists) => CriterionLists::Short(lists.copy()),
            CriterionLists::Apart(lists) => CriterionLists::Apart(lists.clone()?),
        })
    }
}

// Whether a destination begins with one of the numbers, under a profile.
fn has_front_of(numbers: &[IsdnAddress], destination: &Address, profile: Profile) -> bool
    ensures { result ≡ list_any (λ listed. number_matches profile listed (octets destination.now)) numbers.now }
{
    numbers
        .iter()
        .any(|listed| listed.is_front_of(destination, profile))
}

// Whether the count is one of the lengths.
fn has_length(lengths: &[u8], count: usize) -> bool
    ensures { result ≡ list_any (λ listed. listed == count) lengths.now }
{
    lengths.iter().any(|length| usize::from(*length) == count)
}
