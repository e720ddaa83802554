//! The octets of the argument that says an update.

ghost use Rattle.std.specs.Prelude.{◌≡◌, ◌≤◌, ◌++◌, ℕ, List, length, Ok, Option, IfOk, IfSome, OnErr, OnOk};
ghost use Rattle.camel_map.specs.Encoding.{IsInDialogue, IsKept, octets_of_update, operation_of_update};
ghost use Rattle.camel_map.specs.Reading.{whole};
ghost use Rattle.camel_map.specs.Update.{update_of};

pub(crate) mod argument;
pub(crate) mod csi;
pub(crate) mod element;
pub(crate) mod imsi;
pub(crate) mod list;
pub(crate) mod record;
pub(crate) mod value;
pub(crate) mod writer;

use crate::encoding::argument::put_argument;
use crate::encoding::writer::Writer;
use crate::{MAX_ARGUMENT_OCTETS, Operation};
use camel_rows::Update;
use std::alloc::AllocError;

/// Appends the octets of the argument that says an update, and gives the operation: the parameter of the TCAP invoke by
/// which an HLR sends the update (TS 29.002), in BER (ITU-T X.690). No operation says a Register and a ClearAll: the
/// answer is None then, and nothing is appended.
///
/// Fields are in the order of TS 29.002, lengths are definite, and numbers and lengths take as few octets as hold them.
/// [`decode`](crate::decode) gives the update back. At most [`MAX_ARGUMENT_OCTETS`] octets are appended. It asks for
/// memory at most once, for those that `out` has no room for. Its steps are at most a constant times the octets.
///
/// Fails if memory is refused, and for an argument of more than [`MAX_ARGUMENT_OCTETS`] octets, which no update has
/// whose data are those that the constructors keep. `out` is as before then.
#[tactic(auto, using(crate::proofs::EncodedSizes::Arguments::update_few))]
pub fn encode(update: &Update, out: &mut Vec<u8>) -> Result<Option<Operation>, AllocError>
    // The operation is the one that says the update, and the octets are those of its argument.
    ensures operation { IfOk result (λ operation. operation ≡ operation_of_update update.now) }
    ensures appended { OnOk result (out.new.items ≡ out.old.items ++ octets_of_update update.now) }
    // An update whose data are those that the constructors keep has no more octets than there is place for.
    ensures most { IsKept update.now → length (octets_of_update update.now) ≤ MAX_ARGUMENT_OCTETS }
    // They are decoded to the update, in each dialogue that is its subscriber's.
    ensures decoded { (dialogue : Option (List ℕ)) → IsKept update.now → IsInDialogue dialogue update.now
        → IfSome (operation_of_update update.now) (λ operation.
        update_of operation dialogue (whole (octets_of_update update.now)) ≡ Ok update.now) }
    ensures unchanged { OnErr result (out.new.items ≡ out.old.items) }
{
    append(update, out)
}

/// Appends the octets of the argument that says an update, and gives the operation.
pub(crate) fn append(update: &Update, out: &mut Vec<u8>) -> Result<Option<Operation>, AllocError>
    ensures operation { IfOk result (λ operation. operation ≡ operation_of_update update.now) }
    ensures appended { OnOk result (out.new.items ≡ out.old.items ++ octets_of_update update.now) }
    ensures unchanged { OnErr result (out.new.items ≡ out.old.items) }
{
    let mut writer = Writer::new();
    let Ok(operation) = put_argument(&mut writer, update) else {
        return Err(AllocError);
    };
    out.extend_from_slice(writer.as_slice())?;
    Ok(operation)
}
