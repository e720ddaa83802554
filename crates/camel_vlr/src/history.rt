//! What exists only for proofs: the history of a store, of which no byte is kept at run time.

ghost use Rattle.std.specs.Prelude.{◌≡◌, [], ◌++◌};
ghost use Rattle.logbook.specs.Pages.{may_write};
ghost use Rattle.camel_rows.specs.Update.{Extends};

pub(crate) mod link;
pub(crate) mod prefix;
pub(crate) mod rule;
pub(crate) mod terms;
pub(crate) mod told;

use crate::history::link::{Head, Link, NoGain, OneChain, SeenLinks, WithTerms, make_cell};
use crate::history::prefix::Prefix;
use crate::history::terms::{NO_TERMS, Terms};
use camel_rows::Update;
use logbook::{Offer, Pen, Play, Seen, Start, Word};
use std::marker::{Brand, Model, PhantomData};

/// The updates by which a history grows, and the cell at which it goes on. Each call of [`History::grow`] chooses it,
/// only in clauses.
pub(crate) trait Growth {
    ghost use Rattle.std.specs.Prelude.{List, ℕ};
    ghost use Rattle.camel_rows.specs.declared.subscriber.update.Update.{Update};

    ghost updates: { List Update };

    ghost next: { ℕ };
}

impl Growth for Brand {
    ghost use Rattle.std.specs.Prelude.{[]};

    ghost updates = { [] };

    ghost next = { 0 };
}

/// A step that adds a link with these updates.
struct AddLink<G> {
    growth: PhantomData<G>,
}

impl<G: Growth> Play<Link, u64> for AddLink<G> {
    ghost use Rattle.camel_vlr.specs.History.{AddsLink};

    ghost then = { AddsLink G.updates G.next };
}

/// A step that changes nothing, by whoever has the right to add the next link.
struct KeepChain;

impl Play<Link, u64> for KeepChain {
    ghost use Rattle.camel_vlr.specs.History.{KeepsChain};

    ghost then = { KeepsChain };
}

/// The one place that makes the list of a store's updates longer. Of the list itself nothing is kept at run time.
///
/// Contracts see which store it is, and the updates.
#[derive(Drop)]
pub(crate) struct History {
    head: Head,
    seen: SeenLinks,
    start: SeenLinks,
    /// The right to add the next link.
    pen: Pen,
}

impl Model for History {
    ghost use Rattle.camel_vlr.specs.History.{PrefixData, prefix_in, IsHistory};

    ghost Value = { PrefixData };

    ghost view = { λ a. prefix_in a.seen.book a.start.log a.seen.log };

    ghost invariant = { IsHistory };
}

impl History {
    /// An empty history of a store of its own, which is opened with these terms.
    pub(crate) fn new(terms: Terms) -> History
        ensures updates { result.updates ≡ [] }
        ensures limit { result.store.limit ≡ terms.limit }
        ensures profile { result.store.profile ≡ terms.profile }
    {
        let (mut seen, mut first, _second) = Seen::open(Start::alone(), 0, 0);
        let head = Word::tracked(0, &mut first);
        let pen = make_cell(&head, &mut seen, terms);
        let start = seen.again();
        History {
            head,
            seen,
            start,
            pen,
        }
    }

    /// The whole history, as a prefix of the one that it will be.
    pub(crate) fn prefix(&self) -> Prefix
        ensures { result ≡ self.now }
    {
        Prefix {
            seen: self.seen.again(),
            start: self.start.again(),
        }
    }

    /// The right to add a link after the next one, for [`History::grow`].
    pub(crate) fn pen(&self) -> Pen
        ensures { (result.book ≡ self.now.store.book) × (result.nib.right ≡ may_write) }
    {
        let mut seen = self.seen.again();
        make_cell(&self.head, &mut seen, NO_TERMS)
    }

    /// Puts the updates of `G` behind the history. There is no case in which it fails.
    pub(crate) fn grow<G: Growth>(&mut self, next: Pen)
        requires { (next.book ≡ self.old.store.book) × (next.nib.right ≡ may_write) × (next.nib.key ≡ G.next) }
        ensures { self.new ≡ record self.old { updates = self.old.updates ++ G.updates } }
    {
        let mut seen = self.seen.again();
        let mut offer: Offer<Link, u64, OneChain, NoGain> = seen.plain::<NoGain, Terms, WithTerms>(
            &NO_TERMS,
        );
        self.head
            .compare_exchange::<AddLink<G>, NoGain>(0, 0, &mut seen, &mut offer, &mut self.pen);
        self.seen = seen;
        self.pen = next;
    }

    /// No prefix of this history goes beyond it, whoever has one: only [`History::grow`] makes it longer. It changes
    /// nothing.
    pub(crate) fn bounds(&mut self, prefix: &Prefix)
        requires { prefix.now.store ≡ self.old.store }
        ensures same { self.new ≡ self.old }
        ensures bounds { Extends self.old.updates prefix.now.updates }
    {
        let mut seen = self.seen.again();
        seen.learn(&prefix.seen);
        let mut offer: Offer<Link, u64, OneChain, NoGain> = seen.plain::<NoGain, Terms, WithTerms>(
            &NO_TERMS,
        );
        self.head
            .compare_exchange::<KeepChain, NoGain>(0, 0, &mut seen, &mut offer, &mut self.pen);
    }
}
