use camel_rows::Update;
use std::marker::Model;
use std::mem;
use std::snapshot::Snapshot;

/// A list of updates: those before the last one, and the last one. A store keeps a snapshot of it, which only contracts
/// read and which takes no memory.
#[derive(Drop)]
pub(crate) struct UpdateList {
    last: Option<(Snapshot<UpdateList>, Snapshot<Update>)>,
}

impl Model for UpdateList {
    ghost use Rattle.std.specs.Prelude.{List, length, ◌++◌, ◌∷◌, []};
    ghost use Rattle.std.specs.Option.{option_map_or};
    ghost use Rattle.camel_rows.specs.declared.subscriber.update.Update as rows;
    ghost use Rattle.std.proofs.Common.{arith, length-append};

    ghost Value = { List rows.Update };

    ghost view = { λ a. option_map_or (λ p. p.0.value ++ p.1.value ∷ []) a.last [] };

    ghost size = { length };

    ghost size_decreases = { λ a h. Prim.grind (arith, length-append) };
}

impl UpdateList {
    ghost use Rattle.std.specs.Prelude.{◌≡◌, ◌++◌, ◌∷◌, []};

    /// No updates.
    pub(crate) fn none() -> Snapshot<UpdateList>
        ensures { result.value ≡ [] }
    {
        Snapshot::of(&UpdateList { last: None })
    }

    /// One update more, behind the others.
    pub(crate) fn push(list: &mut Snapshot<UpdateList>, update: &Update)
        ensures { list.new.value ≡ list.old.value ++ update.now ∷ [] }
    {
        let before = mem::replace(list, UpdateList::none());
        let pushed = UpdateList {
            last: Some((before, Snapshot::of(update))),
        };
        *list = Snapshot::of(&pushed);
    }
}
