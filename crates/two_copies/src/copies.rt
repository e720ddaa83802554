//! The writer.
ghost use Rattle.std.specs.Prelude.{◌≡◌, ◌≢◌, ◌<◌, ◌≤◌, ◌↔◌, [], ◌∷◌, ◌++◌, fold, length, true, All, IsTrue};
ghost use Rattle.std.specs.Prelude.{MatchResult, OnErr, OnOk, IfErr, IfOk, Err, Some};
ghost use Rattle.std.specs.Arc.{arc_value};
ghost use Rattle.two_copies.specs.Log.{IsAlike, pending_in};
ghost use Rattle.two_copies.specs.WriterEnd.{IsOneMore, IsFreeAt, IsNextAt, ShowsAt};
ghost use Rattle.two_copies.specs.Reader.{place_of, seen_by};
ghost use Rattle.two_copies.specs.declared.copies.TheConstants.{MAX_READERS};

use crate::log::Log;
use crate::place::writer_end::WriterEnd;
use crate::places::{
    Places, close_all, next_place, prepare_all, put, reclaim_all, reclaim_each, show_all,
};
use crate::{Apply, CopyRule, Ending, Reader};
use std::alloc::{AllocError, Global};
use std::collections::VecDeque;
use std::mem;
use std::sync::Arc;

/// The most readers at a time.
pub const MAX_READERS: usize = 64;

/// Nothing was published, and all is pending as before.
#[derive(Clone, Copy, Debug)]
pub enum Unpublished {
    /// A look keeps the copy that is to be changed. No memory was asked for.
    Held,
    /// Memory was refused. The next try goes on where this one stopped.
    OutOfMemory,
}

impl From<AllocError> for Unpublished {
    ghost use Rattle.two_copies.specs.declared.copies.Unpublished.TheVariants.{OutOfMemory};

    ghost from_gives = { λ _ why. why ≡ OutOfMemory };

    fn from(_error: AllocError) -> Unpublished {
        Unpublished::OutOfMemory
    }
}

/// There is no further reader.
#[derive(Clone, Copy, Debug)]
pub enum NoReader {
    /// [`MAX_READERS`] readers are there.
    NoPlace,
    OutOfMemory,
}

impl From<AllocError> for NoReader {
    ghost use Rattle.two_copies.specs.declared.copies.NoReader.TheVariants.{OutOfMemory};

    ghost from_gives = { λ _ why. why ≡ OutOfMemory };

    fn from(_error: AllocError) -> NoReader {
        NoReader::OutOfMemory
    }
}

/// The writer of two copies.
///
/// Contracts see the value that is shown (`shown_by`), the operations that are pending (`pending_of`), and whether each
/// place is known to be free for a publication (`IsFree`). It can't be dropped: [`Copies::end`] ends it.
pub struct Copies<T: Drop + Apply<O>, O: Drop, F: CopyRule<T>> {
    alloc: Global,
    shown: Arc<T, Global>,
    spare: Arc<T, Global>,
    places: Places<T, F>,
    log: Log<O>,
    ghost bounded: { length places.items ≤ MAX_READERS },
    ghost shows: { ∥ All (ShowsAt (arc_value shown)) places.items ∥₁ },
    ghost alike: { ∥ IsAlike T.applied T.restored (T.state (arc_value spare)) (T.state (arc_value shown)) log ∥₁ },
}

impl<T: Drop + Apply<O>, O: Drop, F: CopyRule<T>> Copies<T, O, F> {
    ghost use Rattle.two_copies.specs.Copies.{IsFree, IsReady, held_by, pending_of, places_of, reader_count, shown_by};
    ghost use Rattle.two_copies.specs.Copies.{closed_count, value_of};
    ghost use Rattle.two_copies.specs.declared.copies.NoReader.TheVariants.{NoPlace};
    ghost use Rattle.two_copies.specs.declared.copies.Unpublished.TheVariants.{Held};

    /// Two copies that are alike, of which the first is shown, with no reader yet. It asks for memory for each; if that
    /// is refused, both are dropped.
    pub fn new(alloc: Global, first: T, second: T) -> Result<Copies<T, O, F>, AllocError>
        requires { T.state first ≡ T.state second }
        ensures shown { IfOk result (λ copies. shown_by copies ≡ first) }
        ensures pending { IfOk result (λ copies. pending_of copies ≡ []) }
        ensures places { IfOk result (λ copies. places_of copies ≡ []) }
    {
        let shown = Arc::new(alloc, first)?;
        let spare = Arc::new(alloc, second)?;
        Ok(Copies {
            alloc,
            shown,
            spare,
            places: Vec::new(alloc),
            log: Log::new(alloc),
        })
    }

    /// A further reader of what is shown, with a place of some 700 octets. It takes the place of a reader that was
    /// dropped, if there is one. It fails with `NoPlace` if [`MAX_READERS`] readers are there; one that was dropped no
    /// longer counts. If memory is refused, all is as before.
    pub fn reader(&mut self) -> Result<Reader<T, F>, NoReader>
        requires { F.holds (shown_by self.old) }
        ensures seen { IfOk result (λ reader. seen_by reader ≡ Some (shown_by self.old)) }
        ensures no_place { result ≡ Err NoPlace → reader_count self.old ≡ MAX_READERS }
        ensures place { IfOk result (λ reader. IsOneMore (place_of reader) (places_of self.old) (places_of self.new)) }
        ensures none { OnErr result (places_of self.new ≡ places_of self.old) }
        ensures same { (shown_by self.new ≡ shown_by self.old) × (pending_of self.new ≡ pending_of self.old) }
    {
        let place = next_place(&self.places);
        // Before any memory is asked for.
        if place >= MAX_READERS {
            return Err(NoReader::NoPlace);
        }
        self.add_place(place)
    }

    /// A reader whose place is this one or behind it.
    fn add_place(&mut self, first: usize) -> Result<Reader<T, F>, NoReader>
        requires { F.holds (shown_by self.old) }
        ensures seen { IfOk result (λ reader. seen_by reader ≡ Some (shown_by self.old)) }
        ensures no_place { result ≡ Err NoPlace → reader_count self.old ≡ MAX_READERS }
        ensures place { IfOk result (λ reader. IsOneMore (place_of reader) (places_of self.old) (places_of self.new)) }
        ensures none { OnErr result (places_of self.new ≡ places_of self.old) }
        ensures same { (shown_by self.new ≡ shown_by self.old) × (pending_of self.new ≡ pending_of self.old) }
    {
        let share = Arc::try_clone(&self.shown)?;
        let (end, reader) = WriterEnd::new(self.alloc, share)?;
        drop(put(&mut self.places, first, end)?);
        Ok(reader)
    }

    /// The value that is shown. It costs nothing.
    pub fn shown(&self) -> &T
        ensures { result.now ≡ shown_by self.now }
    {
        &self.shown
    }

    /// Puts an operation behind those that are pending. It asks for memory as a `Vec` does; if that is refused, the
    /// operation is dropped.
    pub fn push(&mut self, operation: O) -> Result<(), AllocError>
        ensures shown { shown_by self.new ≡ shown_by self.old }
        ensures pending { MatchResult result
            (λ _. pending_of self.new ≡ pending_of self.old ++ operation ∷ [])
            (λ _. pending_of self.new ≡ pending_of self.old) }
        ensures free { IsFree self.old → IsFree self.new }
        ensures places { places_of self.new ≡ places_of self.old }
    {
        self.log.push(operation)
    }

    /// Moves these operations behind those that are pending, all or none. If nothing is pending, two lists are
    /// exchanged; else it asks for memory as a `VecDeque` does.
    pub fn push_all(&mut self, operations: &mut VecDeque<O, Global>) -> Result<(), AllocError>
        ensures shown { shown_by self.new ≡ shown_by self.old }
        ensures pending { MatchResult result
            (λ _. pending_of self.new ≡ pending_of self.old ++ operations.old.items)
            (λ _. pending_of self.new ≡ pending_of self.old) }
        ensures rest { MatchResult result
            (λ _. operations.new.items ≡ [])
            (λ _. operations.new.items ≡ operations.old.items) }
        ensures free { IsFree self.old → IsFree self.new }
        ensures places { places_of self.new ≡ places_of self.old }
    {
        self.log.push_all(operations)
    }

    /// The operations that are pending, the first one first.
    pub fn pending(&self) -> &VecDeque<O, Global>
        ensures { result.now.items ≡ pending_of self.now }
    {
        self.log.pending()
    }

    /// Makes room for so many operations more behind those that are pending.
    pub fn reserve(&mut self, additional: usize) -> Result<(), AllocError>
        ensures same { (shown_by self.new ≡ shown_by self.old) × (pending_of self.new ≡ pending_of self.old) }
        ensures ready { IsReady self.old → IsReady self.new }
        ensures free { IsFree self.old → IsFree self.new }
        ensures places { places_of self.new ≡ places_of self.old }
    {
        self.log.reserve(additional)
    }

    /// Drops all that is pending, also after a publication that failed. It takes no memory: what the copy that is not
    /// shown has of it is restored at the next publication.
    pub fn drop_pending(&mut self)
        ensures shown { shown_by self.new ≡ shown_by self.old }
        ensures none { pending_of self.new ≡ [] }
        ensures free { IsFree self.old ↔ IsFree self.new }
        ensures places { places_of self.new ≡ places_of self.old }
    {
        self.log.drop_pending::<T>();
    }

    /// Applies all that is pending to the copy that is not shown, so that a publication has little left to do and to
    /// ask memory for. Nothing is published, and all is pending as before.
    ///
    /// It returns `AllocError` if memory was refused. It also does, before it asks for any, if a look keeps that copy,
    /// or has left it and the writer has not taken it back since, as [`Copies::is_free`] and [`Copies::holders`] do.
    pub fn bring_up(&mut self) -> Result<(), AllocError>
        ensures same { (shown_by self.new ≡ shown_by self.old) × (pending_of self.new ≡ pending_of self.old) }
        ensures ready { OnOk result (IsReady self.new) }
        ensures free { IsFree self.old → IsFree self.new }
        ensures places { places_of self.new ≡ places_of self.old }
    {
        // Each share of the spare copy that was at a place was dropped, unless a look had it when the writer last took
        // the slots back.
        let Some(copy) = Arc::get_mut(&mut self.spare) else {
            return Err(AllocError);
        };
        self.log.bring_up(copy, &self.shown)
    }

    /// Whether no look keeps the copy that is to be changed: then a publication is not `Held`, whatever readers do
    /// meanwhile. It takes a step at each place, up to the first that is held, and no memory.
    pub fn is_free(&mut self) -> bool
        ensures free { IsTrue result ↔ IsFree self.new }
        ensures keeps { IsFree self.old → result ≡ true }
        ensures places { places_of self.new ≡ places_of self.old }
        ensures same { (shown_by self.new ≡ shown_by self.old) × (pending_of self.new ≡ pending_of self.old) }
    {
        reclaim_all(&mut self.places)
    }

    /// Which readers hold up the next publication, each by a look that keeps the copy which is to be changed: bit 0 is
    /// set if the first reader does, and so on in the order in which they were made. A reader that was dropped leaves
    /// its bit to the next one that is made. 0 is returned exactly if [`Copies::is_free`] would return true. It takes a
    /// step at each place, and no memory.
    pub fn holders(&mut self) -> u64
        ensures held { result ≡ held_by self.new }
        ensures free { (result ≡ 0) ↔ IsFree self.new }
        ensures keeps { IsFree self.old → result ≡ 0 }
        ensures same { (shown_by self.new ≡ shown_by self.old) × (pending_of self.new ≡ pending_of self.old) }
        ensures places { places_of self.new ≡ places_of self.old }
    {
        reclaim_each(&mut self.places)
    }

    /// Publishes all that is pending, at once for each reader, and for all of them when it returns. It does not wait.
    ///
    /// It applies the operations of the last publication and then the pending ones to the copy that is not shown, and
    /// takes a few steps at each place. What memory it needs is what the operations ask for.
    ///
    /// It fails with `Held` if a look keeps the copy that is to be changed, before any memory is asked for, and with
    /// `OutOfMemory` if memory was refused. Either way nothing is published, all is pending as before, and it may be
    /// tried again.
    pub fn publish(&mut self) -> Result<(), Unpublished>
        requires { (next : T) → T.state next ≡ fold T.applied (T.state (shown_by self.old)) (pending_of self.old)
            → F.holds next × F.follows (shown_by self.old) next }
        ensures published { OnOk result (T.state (shown_by self.new)
            ≡ fold T.applied (T.state (shown_by self.old)) (pending_of self.old)) }
        ensures none { OnOk result (pending_of self.new ≡ []) }
        ensures unchanged { OnErr result
            ((shown_by self.new ≡ shown_by self.old) × (pending_of self.new ≡ pending_of self.old)) }
        ensures free { IsFree self.old → result ≢ Err Held }
        ensures held { IfErr result (λ why. (why ≡ Held) ↔ (IsFree self.new → ⊥)) }
        ensures keeps { OnErr result (IsFree self.old → IsFree self.new) }
        ensures places { places_of self.new ≡ places_of self.old }
    {
        if !self.is_free() {
            return Err(Unpublished::Held);
        }
        self.prepare()?;
        self.show_next();
        Ok(())
    }

    /// Brings the spare copy to all that is pending, and makes a share of it for each place.
    fn prepare(&mut self) -> Result<(), AllocError>
        requires { IsFree self.old }
        ensures same { (shown_by self.new ≡ shown_by self.old) × (pending_of self.new ≡ pending_of self.old) }
        ensures ready { OnOk result (IsReady self.new) }
        ensures free { IsFree self.new }
        ensures next { OnOk result (All (IsNextAt (arc_value self.new.spare)) self.new.places.items) }
        ensures places { places_of self.new ≡ places_of self.old }
    {
        self.bring_up()?;
        prepare_all(&mut self.places, &self.spare)
    }

    /// Shows the spare copy, which has all that is pending.
    fn show_next(&mut self)
        requires ready { IsReady self.old }
        requires free { IsFree self.old }
        requires next { All (IsNextAt (arc_value self.old.spare)) self.old.places.items }
        requires holds { F.holds (arc_value self.old.spare) }
        requires follows { F.follows (shown_by self.old) (arc_value self.old.spare) }
        ensures published { T.state (shown_by self.new)
            ≡ fold T.applied (T.state (shown_by self.old)) (pending_of self.old) }
        ensures none { pending_of self.new ≡ [] }
        ensures places { places_of self.new ≡ places_of self.old }
    {
        show_all(&mut self.places, &self.shown, &self.spare);
        mem::swap(&mut self.shown, &mut self.spare);
        self.log.turn();
    }

    /// Ends the copies, and returns the one that is shown. The other one is dropped, and so is what is pending. It does
    /// not wait, takes no memory, and takes one step at each place, which no look holds up.
    ///
    /// Each look that begins once it has returned finds that the copies have ended, whether it succeeded or not. Looks
    /// that are held go on. If there is one, it fails, and [`Ending::end`] is to be tried again.
    pub fn end(self) -> Result<T, Ending<T, F>>
        ensures value { MatchResult result (λ value. value ≡ shown_by self)
            (λ ending. value_of ending ≡ shown_by self) }
        ensures closed { IfErr result (λ ending. closed_count ending ≡ reader_count self) }
    {
        self.close().end()
    }

    /// Closes each place, whether or not its reader looks, and drops what is pending.
    fn close(self) -> Ending<T, F>
        ensures value { value_of result ≡ shown_by self }
        ensures closed { closed_count result ≡ reader_count self }
    {
        let Copies {
            alloc: _alloc,
            shown,
            spare,
            mut places,
            log: _log,
        } = self;
        close_all(&mut places);
        Ending::new(shown, spare, places)
    }
}
