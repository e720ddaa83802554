//! What a session answers to call events.

ghost use Rattle.std.specs.Prelude.{◌≡◌, ◌<◌, ◌+◌, ◌⊎◌, [], ◌∷◌, ◌++◌, false, Err, List, length, take, vec_len, IfErr};
ghost use Rattle.std.specs.Prelude.{IfOk, OnErr, OnOk};
ghost use Rattle.camel_rows.specs.Decision.{event_data};
ghost use Rattle.camel_rows.specs.declared.trigger.outcome.Answer.{Answer};
ghost use Rattle.camel_vlr.specs.Store.{Answers, LeavesLook};

use crate::base::seat::Seat;
use crate::{NoLook, Session};
use camel_criteria::Refusal;
use camel_rows::{Answer, CallEvent, Event, Outcome};

impl<S: Seat> Session<S> {
    /// The answer to an event, by a look of its own, which has ended when it returns. It takes no lock, does not wait,
    /// and takes no memory.
    ///
    /// It fails with [`NoLook`] if [`Session::look`] does. Then the session keeps what it had seen and learnt.
    pub fn answer(&mut self, event: &CallEvent) -> Result<Answer, NoLook>
        ensures answers { IfOk result (λ answer. Answers self.old (event.now ∷ []) (answer ∷ []) self.new) }
        ensures refused { OnErr result (LeavesLook self.old self.new) }
        ensures looks { self.new.looks ≡ false }
    {
        self.answer_to(&event.lend())
    }

    /// The answer to a borrowed event, as [`Session::answer`] gives it to one of its own: for a caller that keeps the
    /// event elsewhere, as one in C.
    pub fn answer_to(&mut self, event: &Event) -> Result<Answer, NoLook>
        ensures answers { IfOk result (λ answer. Answers self.old (event_data event.now ∷ []) (answer ∷ []) self.new) }
        ensures refused { OnErr result (LeavesLook self.old self.new) }
        ensures looks { self.new.looks ≡ false }
    {
        let look = self.look()?;
        let answer = Answer {
            front: look.front(),
            outcome: Outcome::of(&look.decide(event)),
        };
        look.leave();
        Ok(answer)
    }

    /// Answers the events in their order, each by a look of its own, and appends the answers to the list. It takes no
    /// lock and does not wait.
    ///
    /// It fails with `OutOfMemory` (102) if memory for the answers was refused: it has not looked then, and the list is
    /// as before. It fails with `NoGuard` (104) if a look failed: the answers to the events before that one are
    /// appended.
    pub fn answer_all(
        &mut self,
        events: &[CallEvent],
        answers: &mut Vec<Answer>,
    ) -> Result<(), Refusal>
        ensures run { (new : List Answer) × (answers.new.items ≡ answers.old.items ++ new)
            × Answers self.old (take (length new) events.now) new self.new }
        ensures all { OnOk result (vec_len answers.new ≡ vec_len answers.old + length events.now) }
        ensures no_guard { result ≡ Err Refusal.NoGuard
            → vec_len answers.new < vec_len answers.old + length events.now }
        ensures no_memory { result ≡ Err Refusal.OutOfMemory
            → (answers.new.items ≡ answers.old.items) × (self.new ≡ self.old) }
        ensures only { IfErr result (λ why. (why ≡ Refusal.OutOfMemory) ⊎ (why ≡ Refusal.NoGuard)) }
        ensures looks { self.old.looks ≡ false → self.new.looks ≡ false }
    {
        // The check of a loop that appends answers needs these types named.
        let _: Option<Answer> = None;
        let _: Option<Outcome> = None;
        answers.reserve(events.len())?;
        for event in events {
            let Ok(answer) = self.answer(event) else {
                return Err(Refusal::NoGuard);
            };
            answers.push_reserved(answer);
        }
        Ok(())
    }
}
