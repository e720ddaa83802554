ghost use Rattle.std.specs.Prelude.{◌≡◌};
ghost use Rattle.camel_rows.specs.Decision.{decision, decision_data, action_of, outcome_of};

use crate::{CallEvent, Decision, Reason, Records, decide_in};
use camel_criteria::Handling;
use camel_tbcd::{IsdnAddress, Profile};

/// A decision with the row's four values, or the reason why no service is invoked.
#[derive(Clone, Copy, Debug, PartialEq, Eq)]
pub enum Outcome {
    /// The service with this service key is invoked at this gsmSCF address; `handling` is the default call
    /// handling.
    Trigger {
        dp: u8,
        key: u32,
        scf: IsdnAddress,
        handling: Handling,
    },
    /// No service is invoked.
    NoTrigger(Reason),
}

impl Outcome {
    /// The outcome of an event over the records, under a profile.
    pub fn decide(records: &Records, event: &CallEvent, profile: Profile) -> Outcome
        ensures { result ≡ outcome_of (decision profile records.now event.now) }
    {
        Outcome::of(&decide_in(records, &event.lend(), profile))
    }

    /// What a decision says, without borrowing from the records.
    pub fn of(decision: &Decision) -> Outcome
        ensures { result ≡ outcome_of (decision_data decision.now) }
    {
        match decision {
            Decision::Trigger { row, .. } => Outcome::Trigger {
                dp: row.dp(),
                key: row.key(),
                scf: row.scf_address(),
                handling: row.handling(),
            },
            Decision::NoTrigger(reason) => Outcome::NoTrigger(*reason),
        }
    }
}

/// The outcome of an event, with the front over whose data it was decided: a list of accepted updates, given by its
/// length.
#[derive(Clone, Copy, Debug, PartialEq, Eq)]
pub struct Answer {
    /// How many updates the front has.
    pub front: u64,
    /// What was decided.
    pub outcome: Outcome,
}

/// What is done with a call.
#[derive(Clone, Copy, Debug, PartialEq, Eq)]
pub enum CallAction {
    /// The call goes on without the service.
    Continue,
    /// The call is released.
    Release,
}

/// What is done with a call of this default call handling, if the dialogue between gsmSSF and gsmSCF fails (TS 23.078).
pub fn on_failure(handling: Handling) -> CallAction
    ensures { result ≡ action_of handling }
{
    match handling {
        Handling::Continue => CallAction::Continue,
        Handling::Release => CallAction::Release,
    }
}
