ghost use Rattle.std.specs.Prelude.{◌≡◌, ◌≤◌, IfOk, IsTrue, length};
ghost use Rattle.std.specs.Option.{option_copied};
ghost use Rattle.camel_criteria.specs.Criteria.{HoldsNoOther};
ghost use Rattle.camel_criteria.specs.HeldCriteria.{entry_of};

use crate::in_place::InPlace;
use crate::{BasicService, CallType, MAX_BASIC_SERVICES, MAX_CAUSES, NumberCriterion};
use std::alloc::AllocError;
use std::marker::Model;

// The criteria that an entry of the O-CSI holds, with its detection point. A number criterion, which is all that most
// entries hold, is kept in place, so that it is read with the entry; other criteria are kept apart from it.
#[derive(Drop)]
pub(crate) enum HeldCriteria {
    Nothing {
        dp: u8,
    },
    Number {
        dp: u8,
        number: NumberCriterion,
    },
    Apart {
        dp: u8,
        criteria: Box<CriteriaApart>,
    },
}

// Any criteria of an entry of the O-CSI.
#[derive(Drop)]
pub(crate) struct CriteriaApart {
    pub(crate) number: Option<NumberCriterion>,
    pub(crate) basic: InPlace<BasicService, MAX_BASIC_SERVICES>,
    pub(crate) call_type: Option<CallType>,
    pub(crate) causes: InPlace<u8, MAX_CAUSES>,
}

impl HeldCriteria {
    pub(crate) fn dp(&self) -> u8
        ensures { result ≡ (entry_of self.now).dp }
    {
        match self {
            HeldCriteria::Nothing { dp }
            | HeldCriteria::Number { dp, .. }
            | HeldCriteria::Apart { dp, .. } => *dp,
        }
    }

    pub(crate) fn number(&self) -> Option<&NumberCriterion>
        ensures { option_copied result ≡ (entry_of self.now).number }
    {
        match self {
            HeldCriteria::Nothing { .. } => None,
            HeldCriteria::Number { number, .. } => Some(number),
            HeldCriteria::Apart { criteria, .. } => criteria.number.as_ref(),
        }
    }

    pub(crate) fn basic(&self) -> &[BasicService]
        ensures same { result.now ≡ (entry_of self.now).basic }
        ensures most { length (entry_of self.now).basic ≤ MAX_BASIC_SERVICES }
    {
        match self {
            HeldCriteria::Apart { criteria, .. } => criteria.basic.as_slice(),
            _ => &[],
        }
    }

    pub(crate) fn call_type(&self) -> Option<CallType>
        ensures { result ≡ (entry_of self.now).call_type }
    {
        match self {
            HeldCriteria::Apart { criteria, .. } => criteria.call_type,
            _ => None,
        }
    }

    pub(crate) fn causes(&self) -> &[u8]
        ensures same { result.now ≡ (entry_of self.now).causes }
        ensures most { length (entry_of self.now).causes ≤ MAX_CAUSES }
    {
        match self {
            HeldCriteria::Apart { criteria, .. } => criteria.causes.as_slice(),
            _ => &[],
        }
    }

    // Whether there are no other criteria than the number's, as is seen without reading what is kept apart.
    pub(crate) fn holds_no_other(&self) -> bool
        ensures { IsTrue result → HoldsNoOther (entry_of self.now) }
    {
        !matches!(self, HeldCriteria::Apart { .. })
    }

    #[inline]
    pub(crate) fn copy(&self) -> Result<HeldCriteria, AllocError>
        ensures { IfOk result (λ copied. entry_of copied ≡ entry_of self.now) }
    {
        Ok(match self {
            HeldCriteria::Nothing { dp } => HeldCriteria::Nothing { dp: *dp },
            HeldCriteria::Number { dp, number } => HeldCriteria::Number {
                dp: *dp,
                number: number.clone()?,
            },
            HeldCriteria::Apart { dp, criteria } => HeldCriteria::Apart {
                dp: *dp,
                criteria: criteria.clone()?,
            },
        })
    }
}

impl Clone for CriteriaApart {
    ghost use Rattle.std.specs.Prelude.{◌≡◌};

    ghost is_clone = { λ old new. new ≡ old };

    fn clone(&self) -> Result<CriteriaApart, AllocError> {
        Ok(CriteriaApart {
            number: self.number.clone()?,
            basic: self.basic.copy(),
            call_type: self.call_type,
            causes: self.causes.copy(),
        })
    }
}
