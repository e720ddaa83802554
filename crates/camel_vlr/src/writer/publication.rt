ghost use Rattle.std.specs.Prelude.{◌≡◌, [], ◌∷◌, ◌++◌, OnOk};
ghost use Rattle.logbook.specs.Pages.{may_write};
ghost use Rattle.camel_rows.specs.Update.{Extends};
ghost use Rattle.camel_vlr.specs.Operation.{updates_among};
ghost use Rattle.camel_vlr.specs.Seat.{KnowsNoLess};
ghost use Rattle.camel_vlr.specs.declared.writer.operation.Operation.TheVariants as operation;

use crate::base::publisher::Publisher;
use crate::history::prefix::Prefix;
use crate::history::{Growth, History};
use crate::writer::operation::Operation;
use logbook::Pen;
use std::alloc::{AllocError, Global};
use std::collections::VecDeque;
use std::marker::Brand;

/// Brings the history to the list of all that is published and pending.
pub(crate) fn extend_history<W: Publisher>(
    history: &mut History,
    writer: &W,
    pending: &VecDeque<Operation, Global>,
)
    requires { Extends
        ((W.shown writer.now).front.updates ++ updates_among (W.pending writer.now ++ pending.now.items))
        history.old.updates }
    ensures store { history.new.store ≡ history.old.store }
    ensures updates { history.new.updates
        ≡ (W.shown writer.now).front.updates ++ updates_among (W.pending writer.now ++ pending.now.items) }
{
    let next = history.pen();
    grow::<Brand, W>(history, writer, pending, next);
}

/// `_writer` and `_pending` are parameters so that the proof can name them where it chooses `G`.
fn grow<G: Growth, W: Publisher>(
    history: &mut History,
    _writer: &W,
    _pending: &VecDeque<Operation, Global>,
    next: Pen,
)
    requires { (next.book ≡ history.old.store.book) × (next.nib.right ≡ may_write) × (next.nib.key ≡ G.next) }
    ensures { history.new ≡ record history.old { updates = history.old.updates ++ G.updates } }
{
    history.grow::<G>(next);
}

/// Hands all that is pending over to the base, and behind it the front that it makes. What is pending is never lost.
pub(crate) fn hand_over<W: Publisher>(
    writer: &mut W,
    pending: &mut VecDeque<Operation, Global>,
    front: Prefix,
) -> Result<(), AllocError>
    ensures shown { W.shown writer.new ≡ W.shown writer.old }
    ensures tells { KnowsNoLess W.tells writer.old writer.new }
    ensures free { W.free writer.old → W.free writer.new }
    ensures updates { updates_among (W.pending writer.new ++ pending.new.items)
        ≡ updates_among (W.pending writer.old ++ pending.old.items) }
    ensures all { OnOk result (W.pending writer.new
        ≡ (W.pending writer.old ++ pending.old.items) ++ operation.Front front ∷ []) }
    ensures none { OnOk result (pending.new.items ≡ []) }
{
    pending.push_back(Operation::Front(front))?;
    writer.append(pending)
}

/// Hands all that is pending over to the base, which asks for the memory that it needs, and makes room for the front.
pub(crate) fn make_room<W: Publisher>(
    writer: &mut W,
    pending: &mut VecDeque<Operation, Global>,
) -> Result<(), AllocError>
    ensures shown { W.shown writer.new ≡ W.shown writer.old }
    ensures tells { KnowsNoLess W.tells writer.old writer.new }
    ensures free { W.free writer.old → W.free writer.new }
    ensures pending { W.pending writer.new ++ pending.new.items ≡ W.pending writer.old ++ pending.old.items }
{
    writer.append(pending)?;
    pending.reserve(1)?;
    writer.get_ready()
}
