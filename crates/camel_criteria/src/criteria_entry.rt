ghost use Rattle.std.specs.Prelude.{◌≡◌, ℕ, List};
ghost use Rattle.camel_criteria.specs.DetectionPoint.{o_detection_points, vt_detection_points};

use crate::{O_DETECTION_POINTS, OCriteria, TCriteria, VT_DETECTION_POINTS};

/// An item that is sent for one trigger detection point: a TDP row, or an entry of criteria (TS 23.078).
pub trait AtDetectionPoint {
    ghost dp_of: { Self → ℕ };

    /// The trigger detection point that it is sent for.
    fn detection_point(&self) -> u8
        ensures { result ≡ dp_of self.now };
}

/// An entry of the criteria of one of the two CSIs (TS 23.078).
pub trait CriteriaEntry: AtDetectionPoint + Clone + Drop {
    ghost points: { List ℕ };

    /// The detection points that are tested against that CSI.
    fn detection_points() -> &'static [u8]
        ensures { result.now ≡ points };

    /// What stands in a place for an entry that holds none. A comparison with it makes no other branch than one with
    /// most entries does. It takes no memory.
    fn filler() -> Self;

    ghost clones_equal: { (old new : Self) → Self.is_clone old new → new ≡ old };
}

impl AtDetectionPoint for OCriteria {
    ghost dp_of = { λ entry. entry.dp };

    fn detection_point(&self) -> u8 {
        self.dp()
    }
}

impl AtDetectionPoint for TCriteria {
    ghost dp_of = { λ entry. entry.dp };

    fn detection_point(&self) -> u8 {
        self.dp()
    }
}

impl CriteriaEntry for OCriteria {
    ghost points = { o_detection_points };

    fn detection_points() -> &'static [u8] {
        &O_DETECTION_POINTS
    }

    fn filler() -> OCriteria {
        OCriteria::filler()
    }

    ghost clones_equal = { λ old new e. e };
}

impl CriteriaEntry for TCriteria {
    ghost points = { vt_detection_points };

    fn detection_points() -> &'static [u8] {
        &VT_DETECTION_POINTS
    }

    fn filler() -> TCriteria {
        TCriteria::filler()
    }

    ghost clones_equal = { λ old new e. e };
}
