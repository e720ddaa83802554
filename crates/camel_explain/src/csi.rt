//! The CSIs, by what a script and the sentences about it call them.

use camel_criteria::{O_DETECTION_POINTS, VT_DETECTION_POINTS, is_among};
use camel_rows::{CsisPresent, Update};

/// A CSI that has criteria.
#[derive(Clone, Copy)]
pub(crate) enum CsiName {
    O,
    Vt,
}

/// Each CSI, in the order of the sentences that name several.
pub(crate) const CSIS: [CsiName; 2] = [CsiName::O, CsiName::Vt];

impl CsiName {
    /// The CSI of the detection point of a call.
    pub(crate) fn of_call(dp: u8) -> CsiName {
        if CsiName::O.counts(dp) {
            CsiName::O
        } else {
            CsiName::Vt
        }
    }

    /// The CSI of an item of this name.
    pub(crate) fn of_item(name: &[u8]) -> CsiName {
        match name {
            b"o" | b"oc" => CsiName::O,
            _ => CsiName::Vt,
        }
    }

    pub(crate) fn name(self) -> &'static str {
        match self {
            CsiName::O => "O-CSI",
            CsiName::Vt => "VT-CSI",
        }
    }

    /// What stands before the name of one CSI of this kind.
    pub(crate) fn article(self) -> &'static str {
        match self {
            CsiName::O => "an",
            CsiName::Vt => "a",
        }
    }

    /// The name of an item that is a row.
    pub(crate) fn row_item(self) -> &'static str {
        match self {
            CsiName::O => "o",
            CsiName::Vt => "t",
        }
    }

    /// The name of an item that is an entry of its criteria.
    pub(crate) fn entry_item(self) -> &'static str {
        match self {
            CsiName::O => "oc",
            CsiName::Vt => "tc",
        }
    }

    /// The detection points of its rows and of its criteria.
    pub(crate) fn points(self) -> &'static [u8] {
        match self {
            CsiName::O => &O_DETECTION_POINTS,
            CsiName::Vt => &VT_DETECTION_POINTS,
        }
    }

    /// Whether a detection point is one of them, so that an item of it is not ignored.
    pub(crate) fn counts(self, dp: u8) -> bool {
        is_among(self.points(), dp)
    }

    /// Whether it is stored in the record of a subscriber.
    pub(crate) fn is_in(self, stored: CsisPresent) -> bool {
        match self {
            CsiName::O => stored.o,
            CsiName::Vt => stored.vt,
        }
    }

    /// Whether an update of its subscriber leaves an entry of a detection point; None if it leaves the entry as it is.
    pub(crate) fn entry_after(self, update: &Update, dp: u8) -> Option<bool> {
        let (comes, entry) = match (self, update) {
            (CsiName::O, Update::Insert { o, o_criteria, .. }) => (
                o.is_some(),
                o_criteria.as_ref().map(|set| set.entry(dp).is_some()),
            ),
            (CsiName::Vt, Update::Insert { vt, t_criteria, .. }) => (
                vt.is_some(),
                t_criteria.as_ref().map(|set| set.entry(dp).is_some()),
            ),
            (CsiName::O, Update::Delete { what, .. }) => (what.o || what.everything, None),
            (CsiName::Vt, Update::Delete { what, .. }) => (what.vt || what.everything, None),
            _ => (true, None),
        };
        match entry {
            Some(has) => Some(has),
            None if comes => Some(false),
            None => None,
        }
    }
}
