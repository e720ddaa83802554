//! The calls, their names, and which of them take memory.

use crate::attempts::Refusals;
use crate::failure::Failure;
use crate::openings;
use crate::publications::Next;
use crate::stage_calls::{StageCall, make_on_stage};
use std::random::RandomSource;
use std::sync::Wait;

/// A call, or several that take no memory.
#[derive(Clone, Copy)]
pub(crate) enum Call {
    Open,
    /// A call of a store that is opened for it, or of its session.
    OnStage(StageCall),
}

/// Each call, whether it takes memory, and its name.
pub(crate) const CALLS: [(Call, bool, &str); 13] = [
    (Call::Open, true, "`Vlr::open`"),
    (
        Call::OnStage(StageCall::Publish(1, Next::Publish)),
        true,
        "`Vlr::publish`, the first",
    ),
    (
        Call::OnStage(StageCall::Publish(2, Next::Publish)),
        true,
        "`Vlr::publish`, the second",
    ),
    (
        Call::OnStage(StageCall::Publish(3, Next::Publish)),
        true,
        "`Vlr::publish`, the third",
    ),
    (
        Call::OnStage(StageCall::Publish(4, Next::Publish)),
        true,
        "`Vlr::publish`, the fourth",
    ),
    (
        Call::OnStage(StageCall::Publish(1, Next::Submit)),
        true,
        "`Vlr::publish`, the first, with a submit before the next",
    ),
    (
        Call::OnStage(StageCall::Publish(2, Next::Submit)),
        true,
        "`Vlr::publish`, the second, with a submit before the next",
    ),
    (
        Call::OnStage(StageCall::Publish(3, Next::Submit)),
        true,
        "`Vlr::publish`, the third, with a submit before the next",
    ),
    (
        Call::OnStage(StageCall::Publish(4, Next::Submit)),
        true,
        "`Vlr::publish`, the fourth, with a submit before the next",
    ),
    (
        Call::OnStage(StageCall::Look),
        false,
        "`Vlr::receipt`; `Session::learn`, `look`, `answer`; `Look::decide`, `row`, `criteria`, `records`, `leave`",
    ),
    (
        Call::OnStage(StageCall::AnswerAll),
        true,
        "`Session::answer_all`",
    ),
    (Call::OnStage(StageCall::Close), true, "`Vlr::close`"),
    (Call::OnStage(StageCall::Serve), true, "`serve`"),
];

impl Call {
    /// The call of this name.
    pub(crate) fn named(name: &str) -> Option<Call> {
        for (call, _, listed) in &CALLS {
            if *listed == name {
                return Some(*call);
            }
        }
        None
    }
}

/// Makes a call in a run of its own.
pub(crate) fn make<R: AllocGlobal + Print + RandomSource + Wait>(
    rt: &R,
    call: Call,
    refusals: &mut Refusals,
) -> Result<(), Failure> {
    match call {
        Call::Open => openings::open(rt, refusals),
        Call::OnStage(call) => make_on_stage(rt, refusals, call),
    }
}
