ghost use Rattle.std.specs.Prelude.{◌≡◌, []};
ghost use Rattle.logbook.specs.Pages.{may_write};
ghost use Rattle.camel_vlr.specs.History.{head_of, list_of, root_of, tail_of, terms_of};

use crate::history::terms::Terms;
use camel_rows::Update;
use logbook::{Gain, Offer, Pen, Plain, Play, Rule, Seen, Word};
use std::collections::LinkedList;

/// A link of a chain: the cell that it uses up, the updates that it adds, and the cell that the link after it has to
/// use up. `terms` are those of the history which begins at `next`. No value of it is made.
pub(crate) struct Link {
    pub cell: u64,
    pub updates: LinkedList<Update>,
    pub next: u64,
    pub terms: Terms,
}

/// Each link uses up a cell of its own, so no two links follow the same one.
pub(crate) struct OneChain;

impl Rule<Link, u64> for OneChain {
    ghost use Rattle.std.specs.Prelude.{[]};
    ghost use base.Fml.{ftrue};
    ghost use Rattle.camel_vlr.specs.History.{UsedUp};

    ghost holds = { λ cells log. UsedUp cells log };

    ghost first = { [] };

    ghost hinted = { λ n log. Unit {0} };

    ghost shows = { λ log. [] };

    ghost keeps = { λ names log. ftrue };

    ghost moves = { λ ask before after answer. Unit {0} };
}

/// The links that were seen.
pub(crate) type SeenLinks = Seen<Link, u64, OneChain>;

/// The word that each step is made at. It holds 0 for good.
pub(crate) type Head = Word<Link, u64, OneChain>;

/// Nothing is traded for a link.
pub(crate) struct NoGain;

impl Gain<Link, u64> for NoGain {
    ghost use base.Fml.{ftrue};

    ghost after = { λ names about answer. ftrue };
}

/// What is asked of a step: a cell at which a history with these terms may begin.
pub(crate) struct WithTerms;

impl Plain<Terms, Link, u64> for WithTerms {
    ghost use Rattle.std.specs.Prelude.{None, []};

    ghost ask = { λ terms. record { cell = 0; updates = []; next = 0; terms = terms } };

    ghost state = { λ terms. None };
}

/// A step that makes a cell.
struct MakeCell;

impl Play<Link, u64> for MakeCell {
    ghost use Rattle.camel_vlr.specs.History.{MakesCell};

    ghost then = { MakesCell };
}

/// A cell that no link has used up, and that the last link names.
pub(crate) fn make_cell(head: &Head, seen: &mut SeenLinks, terms: Terms) -> Pen
    requires { head.now ≡ head_of seen.old.book }
    ensures book { (result.book ≡ seen.old.book) × (seen.new.book ≡ seen.old.book) }
    ensures right { result.nib.right ≡ may_write }
    ensures list { list_of result.nib.key seen.new.log ≡ [] }
    ensures tail { tail_of result.nib.key seen.new.log ≡ result.nib.key }
    ensures root { root_of seen.new.log ≡ result.nib.key }
    ensures terms { terms_of seen.new.log ≡ terms }
{
    let mut offer: Offer<Link, u64, OneChain, NoGain> = seen.plain::<NoGain, Terms, WithTerms>(
        &terms,
    );
    let mut pen = seen.no_pen();
    head.compare_exchange::<MakeCell, NoGain>(0, 0, seen, &mut offer, &mut pen);
    let word: Head = Word::tracked(0, &mut pen);
    drop(word);
    pen
}
