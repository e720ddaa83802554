ghost use Rattle.std.specs.Prelude.{◌↔◌, ℕ, IsTrue, List};
ghost use Rattle.camel_criteria.specs.Criteria.{NumberCriterionData, OCriteriaData, TCriteriaData};
ghost use Rattle.camel_criteria.specs.Met.{OEventData, NumberMetBy, OMet, TMet, number_met, o_met, t_met};
ghost use Rattle.camel_criteria.specs.declared.event.TEvent.{TEvent};
ghost use Rattle.camel_tbcd.specs.declared.profile.Profile.{Profile};

/// A law of the definitions: a destination number criterion is met, and an entry of criteria is met, exactly if the
/// definitions in the words of TS 23.078 say so. It does nothing when it is called.
pub fn criteria_mean()
    ensures number { (profile : Profile) (criterion : NumberCriterionData) (destination : List ℕ)
        → IsTrue (number_met profile criterion destination)
        ↔ NumberMetBy profile criterion.match_type criterion destination }
    ensures o_entry { (profile : Profile) (entry : OCriteriaData) (event : OEventData)
        → IsTrue (o_met profile entry event) ↔ OMet profile entry event }
    ensures t_entry { (entry : TCriteriaData) (event : TEvent) → IsTrue (t_met entry event) ↔ TMet entry event }
{}
