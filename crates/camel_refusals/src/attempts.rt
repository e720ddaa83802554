//! Steps that are made again if memory was refused, and how often that was.

ghost use Rattle.std.specs.Prelude.{IfOk};

use crate::failure::Failure;

/// How often a step is made at most. One request is refused in a run, so the second time it succeeds.
pub(crate) const MOST_ATTEMPTS: u8 = 3;

/// How often a step was refused memory, and the number of the last such answer.
#[derive(Clone, Copy)]
pub(crate) struct Refused {
    pub(crate) count: u64,
    pub(crate) code: u16,
}

/// What the steps of a run refused.
#[derive(Clone, Copy)]
pub(crate) struct Refusals {
    /// What is set up before the call.
    pub(crate) stage: Refused,
    /// The call itself.
    pub(crate) call: Refused,
    /// What is done afterwards to see that nothing is lost.
    pub(crate) end: Refused,
}

impl Refused {
    /// Counts an answer of this number.
    pub(crate) fn add(&mut self, code: u16) {
        self.count = self.count.saturating_add(1);
        self.code = code;
    }
}

impl Refusals {
    pub(crate) fn none() -> Refusals {
        let refused = Refused { count: 0, code: 0 };
        Refusals {
            stage: refused,
            call: refused,
            end: refused,
        }
    }

    /// The steps with their names, in their order.
    pub(crate) fn steps(&self) -> [(&'static str, Refused); 3] {
        [
            ("stage", self.stage),
            ("call", self.call),
            ("end", self.end),
        ]
    }
}

/// Makes a step, and makes it again if memory was refused. What it returns is what a step returned.
pub(crate) fn again<T, F: FnMut() -> Result<T, Failure>>(
    refused: &mut Refused,
    mut step: F,
) -> Result<T, Failure>
    requires { F.IsAlwaysCallable step }
    ensures { IfOk result (λ made. (state : F) × F.post state (Ok made)) }
{
    for _ in 1..MOST_ATTEMPTS {
        match step() {
            Err(Failure::Memory(code)) => refused.add(code),
            ended => return ended,
        }
    }
    step()
}
