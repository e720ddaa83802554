ghost use Rattle.std.specs.Prelude.{◌≡◌, [], ◌∷◌, true};
ghost use Rattle.camel_vlr.specs.Store.{AllLeave};
ghost use Rattle.camel_vlr.specs.Operation.{updates_among};

use crate::history::prefix::Prefix;
use camel_rows::Update;

/// What the writer does to a copy: an update, and behind the updates of a publication the front that they make.
///
/// The update is in a box, since an operation is moved several times, and the list of the operations keeps for good the
/// room that the longest publication took.
#[derive(Drop)]
pub enum Operation {
    Update(Box<Update>),
    Front(Prefix),
}

impl Operation {
    /// Whether its update leaves a record, if it is accepted; a front has none.
    pub(crate) fn leaves_record(&self) -> bool
        ensures yes { result ≡ true → AllLeave (updates_among (self.now ∷ [])) }
        ensures no { AllLeave (updates_among (self.now ∷ [])) → result ≡ true }
    {
        match self {
            Operation::Update(update) => update.leaves_record(),
            Operation::Front(_) => true,
        }
    }
}
