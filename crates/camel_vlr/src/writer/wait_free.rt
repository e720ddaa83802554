//! A store over `two_copies`, whose writer does not wait: how it begins, publishes and ends.

ghost use Rattle.std.specs.Prelude.{◌≡◌, ◌≢◌, ◌==◌, ◌≤◌, ◌⊎◌, not, true, false, vec_len, All, Err, IfErr, IfOk};
ghost use Rattle.std.specs.Prelude.{MatchResult, OnOk};
ghost use Rattle.camel_rows.specs.Update.{IsFront, records_of};
ghost use Rattle.camel_rows.specs.Store.{no_updates};
ghost use Rattle.camel_vlr.specs.Store.{fresh_session, with_all_published};

use crate::base::two_copies_seat::{FrontsGrow, TwoCopiesSeat};
use crate::base::two_copies_writer::TwoCopiesWriter;
use crate::history::History;
use crate::history::terms::Terms;
use crate::published_copy::PublishedCopy;
use crate::writer::state::State;
use crate::{Look, MAX_PLACES, MAX_UPDATES, Receipt, Session, Vlr};
use camel_criteria::Refusal;
use camel_rows::Records;
use camel_table::Seed;
use camel_tbcd::Profile;
use std::alloc::{AllocError, Global};
use std::marker::Model;
use two_copies::{Copies, Ending, Unpublished};

/// A store whose writer does not wait: where that of a [`Vlr`] would wait for a look, a publication is refused. It
/// takes no handle that is `Wait`, and all else is as with a [`Vlr`].
///
/// A publication becomes visible session by session while it is made, and to all sessions when it returns.
pub type WaitFreeVlr = Vlr<TwoCopiesWriter>;

/// A session of a [`WaitFreeVlr`].
pub type WaitFreeSession = Session<TwoCopiesSeat>;

/// A look of a [`WaitFreeSession`]. It lets the next publication go through, and until it is left, the second one after
/// it is refused.
pub type WaitFreeLook<'s> = Look<'s, TwoCopiesSeat>;

impl Vlr<TwoCopiesWriter> {
    /// An empty store that takes at most `limit` updates (1 to [`MAX_UPDATES`]), and `places` sessions (1 to
    /// [`MAX_PLACES`]), none of which has seen or learnt anything. The sessions decide under the profile, which no call
    /// changes. The seed of its tables is for the switch to choose: with [`Seed::random`], nobody who chooses IMSIs can
    /// make look-ups slow.
    ///
    /// It fails with `OutOfMemory` (102) if memory was refused; then nothing remains. It names `NoPlace` (103) too,
    /// which no run meets.
    pub fn open_wait_free(
        alloc: Global,
        places: usize,
        limit: u64,
        profile: Profile,
        seed: Seed,
    ) -> Result<(WaitFreeVlr, Vec<WaitFreeSession>), Refusal>
        requires places { (1 ≤ places) × (places ≤ MAX_PLACES) }
        requires limit { (1 ≤ limit) × (limit ≤ MAX_UPDATES) }
        ensures empty { IfOk result (λ r. (r.0.updates ≡ no_updates) × (r.0.store.limit ≡ limit)) }
        ensures profile { IfOk result (λ r. r.0.store.profile ≡ profile) }
        ensures places { IfOk result (λ r. vec_len r.1 ≡ places) }
        ensures level { IfOk result (λ r. r.0.ahead ≡ false) }
        ensures sessions { IfOk result (λ r. All (λ s. s ≡ fresh_session r.0.store) r.1.items) }
        ensures only { IfErr result (λ why. (why ≡ Refusal.OutOfMemory) ⊎ (why ≡ Refusal.NoPlace)) }
    {
        let mut store = Vlr::empty_wait_free(alloc, Terms { limit, profile }, seed)?;
        match store.seat_all(places) {
            Ok(sessions) => Ok((store, sessions)),
            Err(why) => {
                store.abandon();
                Err(why)
            }
        }
    }

    fn empty_wait_free(alloc: Global, terms: Terms, seed: Seed) -> Result<WaitFreeVlr, AllocError>
        requires limit { (1 ≤ terms.limit) × (terms.limit ≤ MAX_UPDATES) }
        ensures empty { IfOk result (λ r. (r.updates ≡ no_updates) × (r.store.limit ≡ terms.limit)) }
        ensures profile { IfOk result (λ r. r.store.profile ≡ terms.profile) }
        ensures free { IfOk result (λ r. (r.free ≡ false) × (r.held ≡ false) × (r.ahead ≡ false)) }
    {
        let history = History::new(terms);
        let front = history.prefix();
        let first = PublishedCopy::empty(alloc, seed, front.copy());
        let second = PublishedCopy::empty(alloc, seed, front);
        let writer = Copies::new(alloc, first, second)?;
        Ok(Vlr {
            writer,
            state: State::new(alloc, history, terms, seed),
        })
    }

    /// Publishes all that is pending, at once for each session, and for all of them when it returns, also if nothing is
    /// pending. The receipt is of all that is published then. It does not wait.
    ///
    /// It fails with `Held` if a look keeps the copy that is to be changed, before any memory is asked for, and with
    /// `OutOfMemory` if memory was refused; then it is known that no look keeps that copy. Either way nothing was
    /// published, all is pending as before, and it may be tried again.
    pub fn publish(&mut self) -> Result<Receipt, Unpublished>
        ensures published { OnOk result (self.new ≡ with_all_published self.old) }
        ensures receipt { IfOk result
            (λ receipt. receipt ≡ record { store = self.old.store; updates = self.new.updates.published }) }
        ensures front { OnOk result (IsFront self.new.store.limit self.new.updates.published) }
        ensures held { result ≡ Err Unpublished.Held → self.new ≡ record self.old { held = true } }
        ensures refused { result ≡ Err Unpublished.OutOfMemory
            → self.new ≡ record self.old { free = true; held = false; ahead = self.new.ahead } }
        ensures free { self.old.free ≡ true → result ≢ Err Unpublished.Held }
    {
        if !self.is_free() {
            return Err(Unpublished::Held);
        }
        if let Err(why) = self.publish_by(()) {
            return Err(why);
        }
        Ok(self.receipt())
    }

    /// Whether no look keeps the copy that is to be changed: then the next publication is not `Held`, whatever sessions
    /// do meanwhile. It takes a step at the place of each session, up to the first that is held, and no memory.
    pub fn is_free(&mut self) -> bool
        ensures known { self.new ≡ record self.old { free = result; held = not result } }
        ensures keeps { self.old.free ≡ true → result ≡ true }
    {
        let is_free = self.writer.is_free();
        self.state.is_free = Some(is_free);
        is_free
    }

    /// Which sessions hold up the next publication, each by a look that keeps the copy which is to be changed: bit 0 is
    /// set if the first session that [`Vlr::open_wait_free`] returned does, and so on in their order. 0 is returned
    /// exactly if [`Vlr::is_free`] would return true. It takes a step at the place of each session, and no memory.
    pub fn holders(&mut self) -> u64
        ensures known { self.new ≡ record self.old { free = result == 0; held = not (result == 0) } }
        ensures keeps { self.old.free ≡ true → result ≡ 0 }
    {
        let holders = self.writer.holders();
        self.state.is_free = Some(holders == 0);
        holders
    }

    /// Ends the store, and gives the records that the published updates leave. What is pending is dropped. It does not
    /// wait, and takes no memory.
    ///
    /// Whether it succeeds or fails, each look that begins once it has returned fails, and looks that are held go on.
    /// If there is one, it fails, and [`Closing::close`] is to be tried again.
    pub fn close(self) -> Result<Records, Closing>
        ensures { MatchResult result
            (λ records. records ≡ records_of self.updates.published)
            (λ closing. closing ≡ self.updates.published) }
    {
        let Vlr {
            writer,
            state: _state,
        } = self;
        match writer.end() {
            Ok(copy) => Ok(copy.records),
            Err(ending) => Err(Closing { ending }),
        }
    }

    /// Ends the store, as [`Vlr::close`] does, and leaves the data to the looks that are held: they go on, and each
    /// copy is freed once the last look at it is left. It has no clause, since it gives nothing.
    pub fn abandon(self) {
        if let Err(closing) = self.close() {
            closing.abandon();
        }
    }
}

/// A store whose end a look holds up. Looks that are held go on, and each later one fails. It can't be dropped:
/// [`Closing::close`] ends it, and [`Closing::abandon`] leaves it to the looks.
///
/// Contracts see the updates that were published last.
pub struct Closing {
    ending: Ending<PublishedCopy, FrontsGrow>,
}

impl Model for Closing {
    ghost use Rattle.std.specs.Prelude.{List};
    ghost use Rattle.two_copies.specs.Copies.{value_of};
    ghost use Rattle.camel_rows.specs.declared.subscriber.update.Update.{Update};
    ghost use Rattle.camel_vlr.specs.Seat.{IsOfItsFront};

    ghost Value = { List Update };

    ghost view = { λ a. (value_of a.ending).front.updates };

    ghost invariant = { λ a. IsOfItsFront (value_of a.ending) };
}

impl Closing {
    /// Ends the store, and gives the records that the published updates leave, if no look is held any more.
    pub fn close(self) -> Result<Records, Closing>
        ensures { MatchResult result (λ records. records ≡ records_of self) (λ closing. closing ≡ self) }
    {
        let Closing { ending } = self;
        match ending.end() {
            Ok(copy) => Ok(copy.records),
            Err(ending) => Err(Closing { ending }),
        }
    }

    /// Leaves the data to the looks that are held: each copy is freed once the last look at it is left. It has no
    /// clause, since it gives nothing.
    pub fn abandon(self) {
        let Closing { ending } = self;
        ending.abandon();
    }
}
