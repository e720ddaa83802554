ghost use Rattle.std.specs.Prelude.{◌≡◌, ◌&&◌, [], drop};
ghost use Rattle.camel_criteria.specs.DetectionPoint.{is_among};
ghost use Rattle.csv.specs.Records.{fields_of};
ghost use Rattle.camel_script.specs.Item.{item_dp, refused_item};
ghost use Rattle.camel_script.specs.Fields.{numbered, record_fault_of};

use crate::mistake::mistake_at;
use crate::record::field::field;
use crate::text::parts::{ITEM_SEPARATOR, cut_part};
use crate::{Expected, Mistake, parse_small_decimal};
use camel_criteria::{Refusal, is_among};
use camel_rows::MAX_TDP_DATA;
use csv::ByteRecord;

/// The mistake of an insert whose items of a name make a list that is refused: at the first that the list can't take.
/// It is the eleventh, or the second of one of these detection points.
pub(crate) fn refused_item(
    fields: &ByteRecord,
    name: &[u8],
    points: &[u8],
    refusal: Refusal,
) -> Mistake
    ensures { result ≡ refused_item (record_fault_of refusal) name.now points.now []
        (numbered 3 (drop 2 (fields_of fields.now))) }
{
    let mut dps = [0; MAX_TDP_DATA];
    let mut count = 0;
    for at in 2..fields.len() {
        let item = field(fields, at);
        if cut_part(item, ITEM_SEPARATOR).0 == name {
            if count == MAX_TDP_DATA {
                return mistake_at(at + 1, 1, Expected::ItemName, refusal.into());
            }
            let dp = item_dp(item);
            if is_repeated(points, &dps[..count], dp) {
                return mistake_at(at + 1, 2, Expected::DetectionPoint, refusal.into());
            }
            dps[count] = dp;
            count += 1;
        }
    }
    mistake_at(3, 1, Expected::ItemName, refusal.into())
}

/// Whether a detection point is one of these points, and stands before.
fn is_repeated(points: &[u8], before: &[u8], dp: u8) -> bool
    ensures { result ≡ (is_among points.now dp && is_among before.now dp) }
{
    is_among(points, dp) && is_among(before, dp)
}

/// The detection point of an item. Its text has been read before; else it is 0.
fn item_dp(item: &[u8]) -> u8
    ensures { result ≡ item_dp item.now }
{
    let behind = cut_part(item, ITEM_SEPARATOR).1;
    parse_small_decimal(cut_part(behind, ITEM_SEPARATOR).0).unwrap_or(0)
}
