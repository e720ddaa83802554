ghost use Rattle.std.specs.Prelude.{◌≡◌, ◌⊎◌, [], ◌∷◌, ◌++◌, length, IfErr, IfOk, OnOk};
ghost use Rattle.camel_rows.specs.Update.{Extends, records_of};
ghost use Rattle.camel_vlr.specs.Store.{ExtendsAll};

use crate::{Session, Vlr};
use camel_criteria::Refusal;
use camel_rows::Records;
use std::sync::Wait;

/// A store that was not closed, as it was, and why.
pub struct CloseRefused {
    /// `OutOfMemory` (102) or `NoGuard` (104).
    pub why: Refusal,
    /// The store, with all that is published and pending.
    pub store: Vlr,
}

impl Vlr {
    /// Ends the store, and gives the records that the published updates leave. What is pending is dropped. It waits for
    /// the looks that are held. The session has to be of the same store; it learns all that is published. What the
    /// clauses say holds if it returns; that it returns is not proved.
    ///
    /// It fails with `OutOfMemory` (102) if memory was refused, and with `NoGuard` (104) if the session got no look, or
    /// one at another front. The store then comes back with all that is published and pending. No run meets 104, since
    /// the store has not ended there, and the published copy is what the session was told of last.
    pub fn close<R: Wait>(self, rt: &R, session: &mut Session) -> Result<Records, CloseRefused>
        requires { session.old.store ≡ self.store }
        ensures records { IfOk result (λ records. records ≡ records_of self.updates.published) }
        ensures unchanged { IfErr result (λ refused. refused.store ≡ self) }
        ensures only { IfErr result (λ refused. (refused.why ≡ Refusal.OutOfMemory) ⊎ (refused.why ≡ Refusal.NoGuard)) }
        ensures same_store { session.new.store ≡ session.old.store }
        ensures told { session.new.told ≡ session.old.told ++ self.updates.published ∷ [] }
        ensures later { Extends session.new.seen session.old.seen }
    {
        let store = self;
        session.learn(store.receipt());
        match records_at(session, store.published()) {
            Ok(records) => {
                store.end(rt);
                Ok(records)
            }
            Err(why) => Err(CloseRefused { why, store }),
        }
    }
}

/// The records of a look at a front that has so many updates.
fn records_at(session: &mut Session, front: u64) -> Result<Records, Refusal>
    ensures same_store { session.new.store ≡ session.old.store }
    ensures keeps { session.new.told ≡ session.old.told }
    ensures later { Extends session.new.seen session.old.seen }
    ensures told { OnOk result (ExtendsAll session.new.seen session.old.told) }
    ensures front { OnOk result (length session.new.seen ≡ front) }
    ensures records { IfOk result (λ records. records ≡ records_of session.new.seen) }
    ensures only { IfErr result (λ why. (why ≡ Refusal.OutOfMemory) ⊎ (why ≡ Refusal.NoGuard)) }
{
    let Ok(look) = session.look() else {
        return Err(Refusal::NoGuard);
    };
    if look.front() != front {
        return Err(Refusal::NoGuard);
    }
    look.records().copy()
}
