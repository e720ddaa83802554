ghost use Rattle.std.specs.Prelude.{◌≡◌, ◌↔◌, Option};
ghost use Rattle.camel_tbcd.specs.declared.profile.Profile.{Profile};
ghost use Rattle.camel_rows.specs.TdpRow.{TdpRowData};
ghost use Rattle.camel_rows.specs.Decision.{Triggers, TriggersNothing, decision, EventData, FailsCriteria, Invokes};
ghost use Rattle.camel_rows.specs.Decision.{IsEmergencyCall, IsNotArmed, IsUnknown, LacksCsi};
ghost use Rattle.camel_rows.specs.Update.{RecordsData};
ghost use Rattle.camel_rows.specs.Subscriber.{EntryData};
ghost use Rattle.camel_rows.specs.declared.trigger.decision.Reason.{Reason};

/// A law of the definitions: a service is invoked, and each reason is given why none is, exactly if the words of
/// TS 23.078 say so. It does nothing when it is called.
pub fn decisions_mean()
    ensures triggers { (profile : Profile) (m : RecordsData) (event : EventData) (row : TdpRowData)
        (entry : Option EntryData)
        → (decision profile m event ≡ Triggers row entry) ↔ Invokes profile m event row entry }
    ensures unknown { (profile : Profile) (m : RecordsData) (event : EventData)
        → (decision profile m event ≡ TriggersNothing Reason.Unknown) ↔ IsUnknown m event }
    ensures no_csi { (profile : Profile) (m : RecordsData) (event : EventData)
        → (decision profile m event ≡ TriggersNothing Reason.NoCsi) ↔ LacksCsi m event }
    ensures not_armed { (profile : Profile) (m : RecordsData) (event : EventData)
        → (decision profile m event ≡ TriggersNothing Reason.NotArmed) ↔ IsNotArmed m event }
    ensures emergency { (profile : Profile) (m : RecordsData) (event : EventData)
        → (decision profile m event ≡ TriggersNothing Reason.Emergency) ↔ IsEmergencyCall m event }
    ensures criteria { (profile : Profile) (m : RecordsData) (event : EventData)
        → (decision profile m event ≡ TriggersNothing Reason.Criteria) ↔ FailsCriteria profile m event }
{}
