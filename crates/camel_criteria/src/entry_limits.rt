ghost use Rattle.std.specs.Prelude.{◌≡◌, nat_le};
ghost use Rattle.std.specs.List.{list_all};
ghost use Rattle.camel_criteria.specs.Cause.{max_cause};
ghost use Rattle.camel_criteria.specs.Criteria.{are_causes_at};

use crate::cause::MAX_CAUSE;

/// The greatest number of codes of a basic service criterion (maxNumOfCamelBasicServiceCriteria of TS 29.002).
pub const MAX_BASIC_SERVICES: usize = 5;

/// The greatest number of causes of a cause criterion (TS 29.002).
pub const MAX_CAUSES: usize = 5;

// Whether a detection point may have causes; the one before any release may have none.
pub(crate) fn are_causes_at(without_release: u8, dp: u8, causes: &[u8]) -> bool
    ensures { result ≡ are_causes_at without_release dp causes.now }
{
    causes.len() <= MAX_CAUSES && are_causes(causes) && (dp != without_release || causes.is_empty())
}

fn are_causes(causes: &[u8]) -> bool
    ensures { result ≡ list_all (λ cause. nat_le cause max_cause) causes.now }
{
    causes.iter().all(|cause| *cause <= MAX_CAUSE)
}
