ghost use Rattle.std.specs.Prelude.{◌≡◌, Some, None, IfErr, OnOk};
ghost use Rattle.camel_rows.specs.TdpRow.{has_no_two, is_single, list_refusal};

use camel_criteria::{AtDetectionPoint, Refusal};

/// The greatest number of TDP rows that a CSI is sent with: maxNumOfCamelTDPData of TS 29.002. The same limit for
/// criteria entries is this product's own.
pub const MAX_TDP_DATA: usize = 10;

/// Accepts a list of `count` items; `are_single` says that no two are of one detection point that counts.
pub(crate) fn check_list(count: usize, are_single: bool) -> Result<(), Refusal>
    ensures refused { IfErr result (λ why. list_refusal count are_single ≡ Some why) }
    ensures taken { OnOk result (list_refusal count are_single ≡ None) }
{
    match count {
        0 => Err(Refusal::DataMissing),
        1..=MAX_TDP_DATA if are_single => Ok(()),
        _ => Err(Refusal::UnexpectedDataValue),
    }
}

/// Whether no two items are of one of these detection points.
pub(crate) fn has_no_two<T: AtDetectionPoint>(received: &[T], points: &[u8]) -> bool
    ensures { result ≡ has_no_two T.dp_of points.now received.now }
{
    points.iter().all(|point| is_single(received, *point))
}

fn is_single<T: AtDetectionPoint>(received: &[T], dp: u8) -> bool
    ensures { result ≡ is_single T.dp_of dp received.now }
{
    received
        .iter()
        .filter(|item| item.detection_point() == dp)
        .count()
        <= 1
}
