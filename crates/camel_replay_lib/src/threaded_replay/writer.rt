//! The writer's part of a replay with threads.

ghost use Rattle.std.specs.Prelude.{◌≡◌, ◌⊎◌, ◌++◌, [], false, true, All, IfErr, IfOk, OnOk, length, take};
ghost use Rattle.camel_script_replay.specs.Output.{updates_from, line_of, output_from, updates_after};
ghost use Rattle.camel_replay_lib.specs.ThreadsOutput.{is_no_call};
ghost use Rattle.camel_rows.specs.Store.{accepted_updates};
ghost use Rattle.camel_script.specs.Line.{line_text};

use crate::threaded_replay::open_store::OpenStore;
use crate::threaded_replay::threads_fault::ThreadsFault;
use camel_audit::Gate;
use camel_criteria::Refusal;
use camel_rows::Update;
use camel_script::{Line, Record, push_line};
use camel_vlr::{Receipt, Vlr};
use std::collections::VecDeque;
use std::marker::Model;
use std::sync::Wait;

/// What the writer has: the store, the updates that it has accepted, and the text of its lines.
///
/// Contracts see the store and the text.
#[derive(Drop)]
pub(crate) struct Writer<W: Wait + Drop> {
    pub(crate) store: OpenStore<W>,
    pub(crate) accepted: Vec<Update>,
    pub(crate) output: Vec<u8>,
}

impl<W: Wait + Drop> Model for Writer<W> {
    ghost use Rattle.std.specs.Prelude.{◌≡◌};
    ghost use Rattle.camel_replay_lib.specs.Rounds.{WriterData};
    ghost use Rattle.camel_rows.specs.Store.{accepted_updates};

    ghost Value = { WriterData };

    ghost view = { λ a. record { store = a.store.vlr; output = a.output.items } };

    ghost invariant = { λ a. a.accepted.items ≡ accepted_updates a.store.vlr.updates };
}

impl<W: Wait + Drop> Writer<W> {
    /// Answers records that are no calls, in their order.
    pub(crate) fn answer_all<G: Gate, R: Wait>(
        &mut self,
        rt: &R,
        records: VecDeque<Record>,
        gate: &G,
    ) -> Result<(), ThreadsFault>
        requires no_calls { All (λ asked. is_no_call asked ≡ true) records.items }
        ensures output { OnOk result (self.new.output ≡ self.old.output
            ++ output_from self.old.store.store.profile self.old.store.store.limit
            self.old.store.updates records.items) }
        ensures updates { OnOk result (self.new.store.updates
            ≡ updates_from self.old.store.store.limit self.old.store.updates records.items) }
        ensures store { self.new.store.store ≡ self.old.store.store }
        ensures only { IfErr result (λ fault. (fault ≡ ThreadsFault.OutOfMemory) ⊎ (fault ≡ ThreadsFault.Stopped)) }
    {
        let mut records = records;
        'records: while let Some(next) = records.pop_front() {
            let line = self.answer(rt, next, gate)?;
            self.push(&line)?;
        }
        Ok(())
    }

    /// Appends the text of a line.
    fn push(&mut self, line: &Line) -> Result<(), Refusal>
        ensures output { OnOk result (self.new.output ≡ self.old.output ++ line_text line.now) }
        ensures store { self.new.store ≡ self.old.store }
        ensures only { IfErr result (λ why. why ≡ Refusal.OutOfMemory) }
    {
        push_line(&mut self.output, line)
    }

    /// The line of a record that is no call, after which the store holds what the record asks.
    fn answer<G: Gate, R: Wait>(
        &mut self,
        rt: &R,
        next: Record,
        gate: &G,
    ) -> Result<Line, ThreadsFault>
        requires no_call { is_no_call next ≡ true }
        ensures line { IfOk result
            (λ line. line ≡ line_of self.old.store.store.profile self.old.store.store.limit
            self.old.store.updates next) }
        ensures updates { OnOk result (self.new.store.updates
            ≡ updates_after self.old.store.store.limit self.old.store.updates next) }
        ensures store { self.new.store.store ≡ self.old.store.store }
        ensures output { self.new.output ≡ self.old.output }
        ensures only { IfErr result (λ fault. (fault ≡ ThreadsFault.OutOfMemory) ⊎ (fault ≡ ThreadsFault.Stopped)) }
    {
        match next {
            Record::Update(update) => {
                submit(&mut self.store.vlr, &mut self.accepted, update.into_inner())
            }
            Record::Publish => self.publish(rt, gate),
            Record::Refused(refusal) => Ok(Line::Refused(refusal.code())),
            Record::Call(_) => unreachable!(),
        }
    }

    /// Publishes what is pending, if the gate lets it.
    fn publish<G: Gate, R: Wait>(&mut self, rt: &R, gate: &G) -> Result<Line, ThreadsFault>
        ensures line { IfOk result (λ line. line
            ≡ line_of self.old.store.store.profile self.old.store.store.limit self.old.store.updates Record.Publish) }
        ensures updates { OnOk result (self.new.store.updates
            ≡ updates_after self.old.store.store.limit self.old.store.updates Record.Publish) }
        ensures store { self.new.store.store ≡ self.old.store.store }
        ensures output { self.new.output ≡ self.old.output }
        ensures only { IfErr result (λ fault. (fault ≡ ThreadsFault.OutOfMemory) ⊎ (fault ≡ ThreadsFault.Stopped)) }
    {
        if !gate.publishing(self.accepted.len() as u64) {
            return Err(ThreadsFault::Stopped);
        }
        let receipt = self.store.vlr.publish(rt)?;
        Ok(Line::Published(receipt.front()))
    }

    /// A receipt of the last publication.
    pub(crate) fn receipt(&self) -> Receipt
        ensures { result ≡ record { store = self.now.store.store; updates = self.now.store.updates.published } }
    {
        self.store.vlr.receipt()
    }

    /// How many updates are published.
    pub(crate) fn front(&self) -> u64
        ensures { result ≡ length self.now.store.updates.published }
    {
        self.store.vlr.published()
    }

    /// The updates that are published, and the text of the lines. The store is ended.
    pub(crate) fn end(self) -> (Vec<Update>, Vec<u8>)
        ensures published { result.0.items ≡ self.store.updates.published }
        ensures output { result.1.items ≡ self.output }
    {
        let front = self.front() as usize;
        let Writer {
            store: _store,
            mut accepted,
            output,
        } = self;
        accepted.truncate(front);
        (accepted, output)
    }
}

/// Submits a copy of an update, and keeps the update behind the accepted ones if it is accepted.
fn submit(store: &mut Vlr, accepted: &mut Vec<Update>, update: Update) -> Result<Line, ThreadsFault>
    requires accepted { accepted.old.items ≡ accepted_updates store.old.updates }
    ensures line { IfOk result
        (λ line. line ≡ line_of store.old.store.profile store.old.store.limit store.old.updates
        (Record.Update update)) }
    ensures updates { OnOk result
        (store.new.updates ≡ updates_after store.old.store.limit store.old.updates (Record.Update update)) }
    ensures store { store.new.store ≡ store.old.store }
    ensures accepted { accepted.new.items ≡ accepted_updates store.new.updates }
    ensures only { IfErr result (λ fault. fault ≡ ThreadsFault.OutOfMemory) }
{
    accepted.reserve(1)?;
    let copy = update.copy()?;
    match store.submit(copy) {
        Ok(number) => {
            accepted.push_reserved(update);
            Ok(Line::Accepted(number))
        }
        Err(Refusal::OutOfMemory) => Err(ThreadsFault::OutOfMemory),
        Err(refusal) => Ok(Line::Refused(refusal.code())),
    }
}
