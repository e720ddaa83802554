//! A store over `left_right`: how it begins, publishes, and ends without a word.

ghost use Rattle.std.specs.Prelude.{◌≡◌, ◌≤◌, ◌⊎◌, false, vec_len, All, IfErr, IfOk, OnErr, OnOk};
ghost use Rattle.camel_rows.specs.Update.{IsFront};
ghost use Rattle.camel_rows.specs.Store.{no_updates};
ghost use Rattle.camel_vlr.specs.Store.{fresh_session, with_all_published};

use crate::base::left_right_writer::publish_all;
use crate::history::History;
use crate::history::terms::Terms;
use crate::published_copy::PublishedCopy;
use crate::writer::operation::Operation;
use crate::writer::state::State;
use crate::{MAX_PLACES, MAX_UPDATES, Receipt, Session, Vlr};
use camel_criteria::Refusal;
use camel_table::Seed;
use camel_tbcd::Profile;
use left_right::writer::Writer;
use std::alloc::Global;
use std::random::RandomSource;
use std::sync::Wait;

impl Vlr {
    /// An empty store that takes at most `limit` updates (1 to [`MAX_UPDATES`]), and `places` sessions (1 to
    /// [`MAX_PLACES`]), none of which has seen or learnt anything. The sessions decide under the profile, which no call
    /// changes.
    ///
    /// The seed of its tables is from the runtime's random source, so that nobody who chooses IMSIs can make look-ups
    /// slow. If that source fails, the seed is the fixed one.
    ///
    /// It fails with `OutOfMemory` (102) if memory was refused, and with `NoPlace` (103) if a session got no place;
    /// then nothing remains. It takes `Wait`, and nobody looks yet. What its clauses say holds if it returns; that it
    /// returns is not proved.
    pub fn open<R: Wait + RandomSource>(
        rt: &R,
        alloc: Global,
        places: usize,
        limit: u64,
        profile: Profile,
    ) -> Result<(Vlr, Vec<Session>), Refusal>
        requires places { (1 ≤ places) × (places ≤ MAX_PLACES) }
        requires limit { (1 ≤ limit) × (limit ≤ MAX_UPDATES) }
        ensures empty { IfOk result (λ r. (r.0.updates ≡ no_updates) × (r.0.store.limit ≡ limit)) }
        ensures profile { IfOk result (λ r. r.0.store.profile ≡ profile) }
        ensures places { IfOk result (λ r. vec_len r.1 ≡ places) }
        ensures level { IfOk result (λ r. r.0.ahead ≡ false) }
        ensures sessions { IfOk result (λ r. All (λ s. s ≡ fresh_session r.0.store) r.1.items) }
        ensures only { IfErr result (λ why. (why ≡ Refusal.OutOfMemory) ⊎ (why ≡ Refusal.NoPlace)) }
    {
        let seed = Seed::random(rt).unwrap_or(Seed::fixed());
        Vlr::open_seeded(rt, alloc, places, limit, profile, seed)
    }

    /// An empty store as [`Vlr::open`] gives it, with a seed that the switch hands in.
    pub fn open_seeded<R: Wait>(
        rt: &R,
        alloc: Global,
        places: usize,
        limit: u64,
        profile: Profile,
        seed: Seed,
    ) -> Result<(Vlr, Vec<Session>), Refusal>
        requires places { (1 ≤ places) × (places ≤ MAX_PLACES) }
        requires limit { (1 ≤ limit) × (limit ≤ MAX_UPDATES) }
        ensures empty { IfOk result (λ r. (r.0.updates ≡ no_updates) × (r.0.store.limit ≡ limit)) }
        ensures profile { IfOk result (λ r. r.0.store.profile ≡ profile) }
        ensures places { IfOk result (λ r. vec_len r.1 ≡ places) }
        ensures level { IfOk result (λ r. r.0.ahead ≡ false) }
        ensures sessions { IfOk result (λ r. All (λ s. s ≡ fresh_session r.0.store) r.1.items) }
        ensures only { IfErr result (λ why. (why ≡ Refusal.OutOfMemory) ⊎ (why ≡ Refusal.NoPlace)) }
    {
        let mut store = Vlr::empty(rt, alloc, places, Terms { limit, profile }, seed)?;
        match store.seat_all(places) {
            Ok(sessions) => Ok((store, sessions)),
            Err(why) => {
                store.end(rt);
                Err(why)
            }
        }
    }

    /// The first publication, of nothing, lets the writer know which store it is.
    fn empty<R: Wait>(
        rt: &R,
        alloc: Global,
        places: usize,
        terms: Terms,
        seed: Seed,
    ) -> Result<Vlr, Refusal>
        requires places { (1 ≤ places) × (places ≤ MAX_PLACES) }
        requires limit { (1 ≤ terms.limit) × (terms.limit ≤ MAX_UPDATES) }
        ensures empty { IfOk result (λ r. (r.updates ≡ no_updates) × (r.store.limit ≡ terms.limit)) }
        ensures profile { IfOk result (λ r. r.store.profile ≡ terms.profile) }
        ensures free { IfOk result (λ r. (r.free ≡ false) × (r.held ≡ false) × (r.ahead ≡ false)) }
        ensures only { IfErr result (λ why. why ≡ Refusal.OutOfMemory) }
    {
        let history = History::new(terms);
        let front = history.prefix();
        let first = PublishedCopy::empty(alloc, seed, front.copy());
        let second = PublishedCopy::empty(alloc, seed, front.copy());
        let mut writer = Writer::new(alloc, first, second, places)?;
        if writer.append(Operation::Front(front.copy())).is_err() {
            drop(writer.take(rt));
            return Err(Refusal::OutOfMemory);
        }
        let (writer, done) = publish_all(writer, (rt, front));
        match done {
            Ok(()) => Ok(Vlr {
                writer,
                state: State::new(alloc, history, terms, seed),
            }),
            Err(_) => {
                drop(writer.take(rt));
                Err(Refusal::OutOfMemory)
            }
        }
    }

    /// Publishes all that is pending, at once, also if nothing is. It waits for each look at the copy that is to be
    /// changed. The receipt is of all that is published then. What its clauses say holds if it returns; that it returns
    /// is not proved.
    ///
    /// It fails with `OutOfMemory` (102) if memory was refused: nothing was published, all is pending as before, and
    /// it may be tried again.
    pub fn publish<R: Wait>(&mut self, rt: &R) -> Result<Receipt, Refusal>
        ensures published { OnOk result (self.new ≡ with_all_published self.old) }
        ensures receipt { IfOk result
            (λ receipt. receipt ≡ record { store = self.old.store; updates = self.new.updates.published }) }
        ensures front { OnOk result (IsFront self.new.store.limit self.new.updates.published) }
        ensures unchanged { OnErr result (self.new ≡ record self.old { ahead = self.new.ahead }) }
        ensures only { IfErr result (λ why. why ≡ Refusal.OutOfMemory) }
    {
        self.is_never_held();
        self.publish_by(rt)?;
        Ok(self.receipt())
    }

    /// A law, of which the call is only for its clause: the writer waits for looks, so it is never told of one.
    fn is_never_held(&self)
        ensures { self.now.held ≡ false }
    {
        let _writer = &self.writer;
    }

    /// Ends the store, and gives nothing. What is pending is dropped. It waits for the looks that are held; that it
    /// returns is not proved. It has no clause, since it gives nothing.
    pub fn end<R: Wait>(self, rt: &R) {
        let Vlr {
            writer,
            state: _state,
        } = self;
        drop(writer.take(rt));
    }
}
