ghost use Rattle.std.specs.Prelude.{◌≡◌, ◌≤◌, IfErr, IsTrue, length};
ghost use Rattle.std.specs.Option.{option_copied};
ghost use Rattle.camel_criteria.specs.Criteria.{HoldsNoOther, o_criteria_of};
ghost use Rattle.camel_criteria.specs.Refusal.{MakesOf};

use crate::basic_service::BLANK;
use crate::entry_limits::are_causes_at;
use crate::held_criteria::{CriteriaApart, HeldCriteria};
use crate::in_place::InPlace;
use crate::{
    BasicService, COLLECTED_INFO, CallType, MAX_BASIC_SERVICES, MAX_CAUSES, NumberCriterion,
    Refusal,
};
use std::alloc::{AllocError, Global};
use std::fmt;
use std::marker::Model;
use std::mem::size_of;

/// The criteria of a detection point of the O-CSI (O-BcsmCamelTDP-Criteria of TS 29.002): any of a destination
/// number criterion, a basic service criterion, a call type criterion and a cause criterion, or none.
///
/// It takes 40 octets, and no memory apart from them and the number criterion's if it holds no other criterion.
#[derive(Drop)]
pub struct OCriteria {
    held: HeldCriteria,
}

const _: () = prove!(size_of::<OCriteria>() == 40);

impl Model for OCriteria {
    ghost use Rattle.camel_criteria.specs.Criteria.{OCriteriaData};
    ghost use Rattle.camel_criteria.specs.HeldCriteria.{entry_of};

    ghost Value = { OCriteriaData };

    ghost view = { λ a. entry_of a.held };
}

impl OCriteria {
    /// The criteria of a detection point. An empty slice is an absent criterion. It takes memory if there is another
    /// criterion than that of the number.
    ///
    /// Fails with `UnexpectedDataValue` (36) for more than 5 codes, more than 5 causes, a cause over 127, or any cause
    /// at detection point 2, and with `OutOfMemory` (102) if memory is refused. The number criterion is dropped then.
    pub fn new(
        alloc: Global,
        dp: u8,
        number: Option<NumberCriterion>,
        basic: &[BasicService],
        call_type: Option<CallType>,
        causes: &[u8],
    ) -> Result<OCriteria, Refusal>
        ensures made { MakesOf result (o_criteria_of dp number basic.now call_type causes.now) }
        ensures refused { IfErr (o_criteria_of dp number basic.now call_type causes.now) (λ why. result ≡ Err why) }
    {
        if basic.len() > MAX_BASIC_SERVICES || !are_causes_at(COLLECTED_INFO, dp, causes) {
            return Err(Refusal::UnexpectedDataValue);
        }
        if !basic.is_empty() || call_type.is_some() || !causes.is_empty() {
            let criteria = CriteriaApart {
                number,
                basic: InPlace::from_slice(basic, BLANK),
                call_type,
                causes: InPlace::from_slice(causes, 0),
            };
            let criteria = Box::new(alloc, criteria)?;
            return Ok(OCriteria {
                held: HeldCriteria::Apart { dp, criteria },
            });
        }
        Ok(OCriteria {
            held: match number {
                Some(number) => HeldCriteria::Number { dp, number },
                None => HeldCriteria::Nothing { dp },
            },
        })
    }

    // What stands for an entry: it inhibits one number, as a few entries do, so that it is kept as most entries are.
    pub(crate) fn filler() -> OCriteria {
        OCriteria {
            held: HeldCriteria::Number {
                dp: 0,
                number: NumberCriterion::filler(),
            },
        }
    }

    /// The detection point.
    pub fn dp(&self) -> u8
        ensures { result ≡ self.now.dp }
    {
        self.held.dp()
    }

    /// The destination number criterion, if there is one.
    pub fn number(&self) -> Option<&NumberCriterion>
        ensures { option_copied result ≡ self.now.number }
    {
        self.held.number()
    }

    /// The codes of the basic service criterion, up to 5, in the order received; none if it is absent.
    pub fn basic(&self) -> &[BasicService]
        ensures same { result.now ≡ self.now.basic }
        ensures most { length self.now.basic ≤ MAX_BASIC_SERVICES }
    {
        self.held.basic()
    }

    /// The call type criterion, if there is one.
    pub fn call_type(&self) -> Option<CallType>
        ensures { result ≡ self.now.call_type }
    {
        self.held.call_type()
    }

    /// The causes of the cause criterion, up to 5, in the order received; none if it is absent.
    pub fn causes(&self) -> &[u8]
        ensures same { result.now ≡ self.now.causes }
        ensures most { length self.now.causes ≤ MAX_CAUSES }
    {
        self.held.causes()
    }

    // Whether it holds no other criterion than that of the number, as most do. The answer takes one test, and if other
    // criteria were kept apart and are none, it is no.
    pub(crate) fn holds_no_other(&self) -> bool
        ensures { IsTrue result → HoldsNoOther self.now }
    {
        self.held.holds_no_other()
    }
}

impl fmt::Debug for OCriteria {
    fn fmt<W: fmt::Write>(&self, f: &mut fmt::Formatter<W>) -> fmt::Result {
        f.debug_struct("OCriteria")
            .field("dp", &self.dp())
            .field("number", &self.number())
            .field("basic", &self.basic())
            .field("call_type", &self.call_type())
            .field("causes", &self.causes())
            .finish()
    }
}

impl Clone for OCriteria {
    ghost use Rattle.std.specs.Prelude.{◌≡◌};

    ghost is_clone = { λ old new. new ≡ old };

    #[inline]
    fn clone(&self) -> Result<OCriteria, AllocError> {
        Ok(OCriteria {
            held: self.held.copy()?,
        })
    }
}
