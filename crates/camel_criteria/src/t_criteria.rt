ghost use Rattle.std.specs.Prelude.{◌≡◌, ◌≤◌, length};
ghost use Rattle.camel_criteria.specs.Criteria.{t_criteria_of};

use crate::basic_service::BLANK;
use crate::entry_limits::are_causes_at;
use crate::in_place::InPlace;
use crate::{BasicService, MAX_BASIC_SERVICES, MAX_CAUSES, Refusal, TERMINATING_ATTEMPT};
use std::alloc::AllocError;
use std::marker::Model;

/// The criteria of a detection point of the VT-CSI (T-BCSM-CAMEL-TDP-Criteria of TS 29.002): a basic service
/// criterion, a cause criterion, both or none.
#[derive(Debug, Drop)]
pub struct TCriteria {
    dp: u8,
    causes: InPlace<u8, MAX_CAUSES>,
    basic: InPlace<BasicService, MAX_BASIC_SERVICES>,
}

impl Model for TCriteria {
    ghost use Rattle.camel_criteria.specs.Criteria.{TCriteriaData};

    ghost Value = { TCriteriaData };

    ghost view = { λ a. record { dp = a.dp; basic = a.basic; causes = a.causes } };
}

impl TCriteria {
    /// The criteria of a detection point. An empty slice is an absent criterion. It takes no memory.
    ///
    /// Fails with `UnexpectedDataValue` (36) for more than 5 codes, more than 5 causes, a cause over 127, or any cause
    /// at detection point 12.
    pub fn new(dp: u8, basic: &[BasicService], causes: &[u8]) -> Result<TCriteria, Refusal>
        ensures { result ≡ t_criteria_of dp basic.now causes.now }
    {
        if basic.len() > MAX_BASIC_SERVICES || !are_causes_at(TERMINATING_ATTEMPT, dp, causes) {
            return Err(Refusal::UnexpectedDataValue);
        }
        Ok(TCriteria {
            dp,
            causes: InPlace::from_slice(causes, 0),
            basic: InPlace::from_slice(basic, BLANK),
        })
    }

    // What stands for an entry: it holds no criterion.
    pub(crate) fn filler() -> TCriteria {
        TCriteria {
            dp: 0,
            causes: InPlace::empty(0),
            basic: InPlace::empty(BLANK),
        }
    }

    /// The detection point.
    pub fn dp(&self) -> u8
        ensures { result ≡ self.now.dp }
    {
        self.dp
    }

    /// The codes of the basic service criterion, up to 5, in the order received; none if it is absent.
    pub fn basic(&self) -> &[BasicService]
        ensures same { result.now ≡ self.now.basic }
        ensures most { length self.now.basic ≤ MAX_BASIC_SERVICES }
    {
        self.basic.as_slice()
    }

    /// The causes of the cause criterion, up to 5, in the order received; none if it is absent.
    pub fn causes(&self) -> &[u8]
        ensures same { result.now ≡ self.now.causes }
        ensures most { length self.now.causes ≤ MAX_CAUSES }
    {
        self.causes.as_slice()
    }
}

impl Clone for TCriteria {
    ghost use Rattle.std.specs.Prelude.{◌≡◌};

    ghost is_clone = { λ old new. new ≡ old };

    fn clone(&self) -> Result<TCriteria, AllocError> {
        Ok(TCriteria {
            dp: self.dp,
            causes: self.causes.copy(),
            basic: self.basic.copy(),
        })
    }
}
