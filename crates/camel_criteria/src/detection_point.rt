ghost use Rattle.std.specs.Prelude.{◌≡◌};
ghost use Rattle.camel_criteria.specs.DetectionPoint.{is_among, is_o_detection_point, is_vt_detection_point};

/// Trigger detection point 2, collectedInfo of O-BcsmTriggerDetectionPoint (TS 29.002).
pub const COLLECTED_INFO: u8 = 2;

/// Trigger detection point 4, routeSelectFailure of O-BcsmTriggerDetectionPoint (TS 29.002).
pub const ROUTE_SELECT_FAILURE: u8 = 4;

/// Trigger detection point 12, termAttemptAuthorized of T-BcsmTriggerDetectionPoint (TS 29.002).
pub const TERMINATING_ATTEMPT: u8 = 12;

/// Trigger detection point 13, tBusy of T-BcsmTriggerDetectionPoint (TS 29.002).
pub const BUSY: u8 = 13;

/// Trigger detection point 14, tNoAnswer of T-BcsmTriggerDetectionPoint (TS 29.002).
pub const NO_ANSWER: u8 = 14;

/// The detection points that are tested against the O-CSI (TS 23.078).
pub const O_DETECTION_POINTS: [u8; 2] = [COLLECTED_INFO, ROUTE_SELECT_FAILURE];

/// The detection points that are tested against the VT-CSI (TS 23.078).
pub const VT_DETECTION_POINTS: [u8; 3] = [TERMINATING_ATTEMPT, BUSY, NO_ANSWER];

/// Whether a detection point is one of these.
pub fn is_among(points: &[u8], dp: u8) -> bool
    ensures { result ≡ is_among points.now dp }
{
    points.contains(&dp)
}

/// Whether a detection point is tested against the O-CSI, as 2 and 4 are (TS 23.078).
pub fn is_o_detection_point(dp: u8) -> bool
    ensures { result ≡ is_o_detection_point dp }
{
    is_among(&O_DETECTION_POINTS, dp)
}

/// Whether a detection point is tested against the VT-CSI, as 12, 13 and 14 are (TS 23.078).
pub fn is_vt_detection_point(dp: u8) -> bool
    ensures { result ≡ is_vt_detection_point dp }
{
    is_among(&VT_DETECTION_POINTS, dp)
}
