ghost use Rattle.std.specs.Prelude.{◌≡◌, ◌≤◌};
ghost use Rattle.camel_rows.specs.Decision.{decision_data, outcome_of};
ghost use Rattle.camel_c_data.specs.Event.{ShowsAnswer, reason_number};

use crate::address::CamelIsdnAddress;
use camel_criteria::Handling;
use camel_rows::{Decision, Reason};
use std::mem::size_of;

/// What is returned for a call event: what was decided, and the front over whose data it was decided.
///
/// If a service is invoked, `key`, `scf`, `dp` and `is_release` are the row's four values, and `reason` is 0. If none
/// is, these are 0, with no octets of an address, and `reason` is 1 to 5.
#[repr(C)]
#[derive(Clone, Copy, Debug)]
pub struct CamelAnswer {
    /// How many updates the front has.
    pub front: u64,
    /// The service key.
    pub key: u32,
    /// The gsmSCF address.
    pub scf: CamelIsdnAddress,
    /// The trigger detection point.
    pub dp: u8,
    /// The default call handling: 1 if the call is released if the dialogue between gsmSSF and gsmSCF fails.
    pub is_release: u8,
    /// 1 if a service is invoked.
    pub is_trigger: u8,
    /// Why none is invoked: 1 there is no record of the IMSI, 2 the CSI is not stored, 3 the CSI has no row of the
    /// detection point, 4 the call is an emergency call, 5 the criteria are not met.
    pub reason: u8,
}

const _: () = prove!(size_of::<CamelAnswer>() == 32);

impl CamelAnswer {
    /// Writes the answer that a decision is, over a front of so many updates. Each field is written once, where it
    /// lies.
    #[inline]
    pub fn write(&mut self, front: u64, decision: &Decision)
        ensures { ShowsAnswer (record { front = front; outcome = outcome_of (decision_data decision.now) }) self.new }
    {
        self.front = front;
        match decision {
            Decision::Trigger { row, .. } => {
                self.key = row.key();
                self.scf = CamelIsdnAddress::of(&row.scf_address());
                self.dp = row.dp();
                self.is_release = u8::from(matches!(row.handling(), Handling::Release));
                self.is_trigger = 1;
                self.reason = 0;
            }
            Decision::NoTrigger(reason) => {
                self.key = 0;
                self.scf = CamelIsdnAddress::none();
                self.dp = 0;
                self.is_release = 0;
                self.is_trigger = 0;
                self.reason = number_of(*reason);
            }
        }
    }
}

/// The number of a reason.
fn number_of(reason: Reason) -> u8
    ensures number { result ≡ reason_number reason }
    ensures some { 1 ≤ result }
{
    match reason {
        Reason::Unknown => 1,
        Reason::NoCsi => 2,
        Reason::NotArmed => 3,
        Reason::Emergency => 4,
        Reason::Criteria => 5,
    }
}
