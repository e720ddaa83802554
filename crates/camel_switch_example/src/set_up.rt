ghost use Rattle.std.specs.Prelude.{◌≡◌};

use camel_criteria::Refusal;
use camel_rows::{CallEvent, Outcome, Reason, Subscriber};
use camel_tbcd::Profile;
use camel_vlr::Session;

/// What a call was given at its set-up, and what is kept of it for a later detection point. A call keeps the CSIs of
/// its set-up (TS 23.078), whatever the HLR sends meanwhile.
#[derive(Debug, Drop)]
pub struct SetUp {
    /// The outcome at DP 2 or DP 12.
    pub outcome: Outcome,
    record: Option<Subscriber>,
    profile: Profile,
}

impl SetUp {
    /// Decides an event at DP 2 or DP 12, and copies the subscriber's record, both over one look.
    ///
    /// It fails with `NoGuard` (104) if the look fails, and with `OutOfMemory` (102) if memory was refused for the
    /// copy.
    pub fn of(session: &mut Session, event: &CallEvent) -> Result<SetUp, Refusal>
        ensures { session.new.store ≡ session.old.store }
    {
        let profile = session.profile();
        let Ok(look) = session.look() else {
            return Err(Refusal::NoGuard);
        };
        let outcome = Outcome::of(&look.decide(&event.lend()));
        let record = match look.records().get(&event.imsi()) {
            Some(subscriber) => Some(subscriber.copy()?),
            None => None,
        };
        look.leave();
        Ok(SetUp {
            outcome,
            record,
            profile,
        })
    }

    /// The outcome of the same call at DP 4, 13 or 14. It is not asked while a gsmSCF controls the call.
    pub fn later(&self, event: &CallEvent) -> Outcome {
        match &self.record {
            Some(subscriber) => Outcome::of(&subscriber.decide(&event.lend(), self.profile)),
            None => Outcome::NoTrigger(Reason::Unknown),
        }
    }
}
