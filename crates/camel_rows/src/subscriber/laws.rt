ghost use Rattle.std.specs.Prelude.{◌≡◌, false, List, ℕ, Option, Some, None};
ghost use Rattle.std.specs.FinMap as map;
ghost use Rattle.camel_criteria.specs.Criteria.{OCriteriaData, TCriteriaData};
ghost use Rattle.camel_rows.specs.TdpRow.{TdpRowData};
ghost use Rattle.camel_rows.specs.Decision.{HasO, HasVt, csi_with};
ghost use Rattle.camel_rows.specs.Update.{RecordsData, no_records, is_of, records_after, refusal};
ghost use Rattle.camel_rows.specs.declared.subscriber.update.Update.{Update};

/// A law of the definitions: an update changes the record of its own IMSI only, but for `ClearAll`, which concerns all
/// and leaves none. It does nothing when it is called.
pub fn updates_change_own_records()
    ensures others { (m : RecordsData) (update : Update) (imsi : List ℕ)
        → is_of imsi update ≡ false → map.get (records_after m update) imsi ≡ map.get m imsi }
    ensures all { (m : RecordsData) → records_after m Update.ClearAll ≡ no_records }
{}

/// A law of the definitions: if a subscriber registers, and an Insert then brings a CSI and is not refused, that CSI is
/// stored with the criteria that came with it, whatever was stored before. It does nothing when it is called.
pub fn inserted_csi_stands()
    ensures o { (m : RecordsData) (imsi : List ℕ) (rows : List TdpRowData) (o_criteria : Option (List OCriteriaData))
        (vt : Option (List TdpRowData)) (t_criteria : Option (List TCriteriaData))
        → refusal (records_after m (Update.Register imsi)) (Update.Insert imsi (Some rows) o_criteria vt t_criteria)
        ≡ None
        → HasO (records_after (records_after m (Update.Register imsi))
        (Update.Insert imsi (Some rows) o_criteria vt t_criteria))
        imsi (csi_with rows o_criteria) }
    ensures vt { (m : RecordsData) (imsi : List ℕ) (rows : List TdpRowData) (t_criteria : Option (List TCriteriaData))
        (o : Option (List TdpRowData)) (o_criteria : Option (List OCriteriaData))
        → refusal (records_after m (Update.Register imsi)) (Update.Insert imsi o o_criteria (Some rows) t_criteria)
        ≡ None
        → HasVt (records_after (records_after m (Update.Register imsi))
        (Update.Insert imsi o o_criteria (Some rows) t_criteria))
        imsi (csi_with rows t_criteria) }
{}
