ghost use Rattle.std.specs.Prelude.{◌≡◌, ◌≤◌, Ok, Err, IfErr, IfOk, length, take};
ghost use Rattle.camel_c_data.specs.Fields.{first_items};

use crate::data_fault::DataFault;

/// The first items of a room, so many as are counted.
///
/// Fails with `Malformed` (502) if there is no room for so many.
pub(crate) fn first_items<T>(room: &[T], count: u8) -> Result<&[T], DataFault>
    ensures taken { IfOk result (λ items. first_items count room.now ≡ Ok items.now) }
    ensures malformed { IfErr result (λ fault. first_items count room.now ≡ Err fault) }
{
    match room.get(..usize::from(count)) {
        Some(items) => Ok(items),
        None => Err(DataFault::Malformed),
    }
}

/// A room with these octets, and 0 behind them.
pub(crate) fn room_with<const MOST: usize>(octets: &[u8]) -> [u8; MOST]
    requires { length octets.now ≤ MOST }
    ensures { take (length octets.now) result ≡ octets.now }
{
    let mut room = [0; MOST];
    room[..octets.len()].copy_from_slice(octets);
    room
}
