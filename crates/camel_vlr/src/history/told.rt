use crate::receipt::Receipt;
use std::marker::Model;
use std::snapshot::Snapshot;

/// The fronts that a session has learnt: those before, and the last one. A session keeps a snapshot of it, so that
/// only clauses read it, and it takes no bytes.
#[derive(Drop)]
pub(crate) struct Told {
    last: Option<(Snapshot<Told>, Snapshot<Receipt>)>,
}

impl Model for Told {
    ghost use Rattle.std.specs.Prelude.{List, length, ◌++◌, ◌∷◌, []};
    ghost use Rattle.std.specs.Option.{option_map_or};
    ghost use Rattle.camel_rows.specs.declared.subscriber.update.Update.{Update};
    ghost use Rattle.std.proofs.Common.{arith, length-append};

    ghost Value = { List (List Update) };

    ghost view = { λ a. option_map_or (λ p. p.0.value ++ p.1.value.updates ∷ []) a.last [] };

    ghost size = { length };

    ghost size_decreases = { λ a h. Prim.grind (arith, length-append) };
}

impl Told {
    ghost use Rattle.std.specs.Prelude.{◌≡◌, ◌++◌, ◌∷◌, []};

    /// No front.
    pub(crate) fn none() -> Snapshot<Told>
        ensures { result.value ≡ [] }
    {
        Snapshot::of(&Told { last: None })
    }

    /// Those fronts, and behind them the one of a receipt.
    pub(crate) fn with(before: Snapshot<Told>, receipt: &Receipt) -> Snapshot<Told>
        ensures { result.value ≡ before.value ++ receipt.now.updates ∷ [] }
    {
        let told = Told {
            last: Some((before, Snapshot::of(receipt))),
        };
        Snapshot::of(&told)
    }
}
