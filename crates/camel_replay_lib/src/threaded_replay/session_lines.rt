//! The end of a replay with threads: the audit in parts of the subscribers, and the lines of the sessions. Each session
//! has a thread that audits a part and makes the session's lines, and the caller's thread audits one part more.

ghost use Rattle.std.specs.Prelude.{◌≡◌, ℕ, ◌+◌, ◌<◌, ◌++◌, true, [], ◌∷◌, All, IfErr, IfOk, IsOkAnd, OnOk, length};
ghost use Rattle.std.specs.List.{flat_map};
ghost use Rattle.camel_audit.specs.Audit.{Passes, PassesInPart, is_in_part, is_member};
ghost use Rattle.camel_replay_lib.specs.Rounds.{PassesOf, text_of, IsOfTask, PartPasses, task_text};
ghost use Rattle.camel_replay_lib.specs.ThreadsOutput.{session_text, sessions_text};

use crate::threaded_replay::threads_fault::ThreadsFault;
use camel_audit::{AuditFault, Part, Transcript, audit, passes_in_part};
use camel_criteria::Refusal;
use camel_rows::Update;
use camel_script::{Line, push_line};
use camel_tbcd::Profile;
use std::alloc::{AllocError, Global};
use std::collections::VecDeque;
use std::sync::Wait;
use std::thread;
use std::thread::{Promise, PromisedHandle, Scope, Threads};

/// What the thread of a session has to do: to audit a part of the subscribers, and to make the lines of the session. It
/// is the promise of the thread, too.
#[derive(Clone, Copy)]
struct Task<'a> {
    updates: &'a [Update],
    transcripts: &'a [Transcript],
    profile: Profile,
    part: Part,
    session: u64,
    transcript: &'a Transcript,
}

/// What a thread found and made: whether the audit of its part passes, and the text of its lines, if it had the memory.
#[derive(Drop)]
struct Found {
    passes: bool,
    lines: Result<Vec<u8>, Refusal>,
}

impl<'a> Promise<Found> for Task<'a> {
    ghost use Rattle.camel_replay_lib.specs.Rounds.{IsOfTask};

    ghost kept_by = { λ task found. IsOfTask task found };
}

/// The thread of a session.
#[derive(Drop)]
struct SessionThread<'a> {
    handle: PromisedHandle<Found, Task<'a>>,
}

/// Whether the parts of all threads pass, and the texts of their lines, session by session, if each had the memory.
#[derive(Drop)]
struct Joined {
    passes: bool,
    texts: Result<VecDeque<Vec<u8>>, Refusal>,
}

/// Audits what the sessions answered, and appends their lines, which threads make. A fault of the audit comes before
/// one of the lines. The lines are put together in the memory of the updates and the transcripts.
pub(crate) fn audit_beside_lines<R: Threads + Wait>(
    rt: &R,
    alloc: Global,
    updates: Vec<Update>,
    transcripts: Vec<Transcript>,
    profile: Profile,
    output: Vec<u8>,
) -> Result<Vec<u8>, ThreadsFault>
    ensures passes { OnOk result (Passes profile updates.items transcripts.items) }
    ensures lines { IfOk result (λ text. text.items ≡ output.items ++ sessions_text 0 transcripts.items) }
{
    let texts = audit_in_threads(rt, alloc, &updates, &transcripts, profile)?;
    drop(updates);
    drop(transcripts);
    Ok(append_all(output, texts)?)
}

/// Audits what the sessions answered, and makes the texts of their lines, in a thread for each session and in its own.
fn audit_in_threads<R: Threads + Wait>(
    rt: &R,
    alloc: Global,
    updates: &[Update],
    transcripts: &[Transcript],
    profile: Profile,
) -> Result<VecDeque<Vec<u8>>, ThreadsFault>
    ensures passes { OnOk result (Passes profile updates.now transcripts.now) }
    ensures lines { IfOk result (λ texts. flat_map (λ text. text.items) texts.items ≡ sessions_text 0 transcripts.now) }
{
    thread::scope(
        thread::scope_env(),
        rt,
        |scope| -> Result<VecDeque<Vec<u8>>, ThreadsFault>
            ensures passes { OnOk result (Passes profile updates.entry.now transcripts.entry.now) }
            ensures lines { IfOk result
                (λ texts. flat_map (λ text. text.items) texts.items ≡ sessions_text 0 transcripts.entry.now) }
        { audit_in_scope(rt, scope, alloc, updates, transcripts, profile) },
    )
}

/// Starts the threads, audits a part, and joins the threads. If a part doesn't pass, all is audited once more, which
/// says where the fault is.
fn audit_in_scope<'s, E, R: Threads>(
    rt: &R,
    scope: &Scope<'s, E>,
    alloc: Global,
    updates: &'s [Update],
    transcripts: &'s [Transcript],
    profile: Profile,
) -> Result<VecDeque<Vec<u8>>, ThreadsFault>
    ensures passes { OnOk result (Passes profile updates.now transcripts.now) }
    ensures lines { IfOk result (λ texts. flat_map (λ text. text.items) texts.items ≡ sessions_text 0 transcripts.now) }
{
    let started = start_all(scope, alloc, updates, transcripts, profile)?;
    let own = passes_alone(
        alloc,
        updates,
        transcripts,
        profile,
        part_of(0, transcripts),
    );
    let Joined { passes, texts } = join_all(rt, alloc, started);
    audit_unless(own && passes, alloc, updates, transcripts, profile)?;
    Ok(texts?)
}

/// Audits all, unless each part passes.
fn audit_unless(
    passes: bool,
    alloc: Global,
    updates: &[Update],
    transcripts: &[Transcript],
    profile: Profile,
) -> Result<(), AuditFault>
    requires { passes ≡ true → Passes profile updates.now transcripts.now }
    ensures { OnOk result (Passes profile updates.now transcripts.now) }
{
    if passes {
        return Ok(());
    }
    audit(alloc, updates, transcripts, profile)
}

/// The part with this number, of one for each session and one more.
fn part_of(number: u64, transcripts: &[Transcript]) -> Part
    ensures number { result.number ≡ number }
    ensures count { result.count ≡ length transcripts.now + 1 }
{
    Part {
        number,
        count: transcripts.len() as u64 + 1,
    }
}

/// Starts the thread of each session, the first of which has the number 0, and audits the part 1.
fn start_all<'s, E>(
    scope: &Scope<'s, E>,
    alloc: Global,
    updates: &'s [Update],
    transcripts: &'s [Transcript],
    profile: Profile,
) -> Result<VecDeque<SessionThread<'s>>, ThreadsFault>
    ensures lines { IfOk result (λ started. flat_map text_of started.items ≡ sessions_text 0 transcripts.now) }
    ensures parts { IfOk result
        (λ started. All PassesOf started.items → (session : ℕ) → session < length transcripts.now
        → PassesInPart (is_in_part (length transcripts.now + 1) (session + 1)) profile updates.now transcripts.now) }
{
    let mut started = VecDeque::new(alloc);
    for (session, transcript) in transcripts.iter().enumerate() {
        let session = session as u64;
        let task = Task {
            updates,
            transcripts,
            profile,
            part: part_of(session + 1, transcripts),
            session,
            transcript,
        };
        let Ok(()) = started.push_back(start(scope, alloc, task)?) else {
            return Err(ThreadsFault::OutOfMemory);
        };
    }
    Ok(started)
}

/// Starts the thread of a session. Fails with `NoWorker` (106) if none is started.
fn start<'s, E>(
    scope: &Scope<'s, E>,
    alloc: Global,
    task: Task<'s>,
) -> Result<SessionThread<'s>, ThreadsFault>
    ensures { IfOk result (λ thread. thread.handle.promise ≡ task.entry) }
{
    let run = move || -> Found
        ensures { IsOfTask task.entry result }
    { run(alloc, task) };
    match scope.spawn_with(task, run) {
        Ok(handle) => Ok(SessionThread { handle }),
        Err(_) => Err(ThreadsFault::NoWorker),
    }
}

/// Audits the part, and then makes the lines.
fn run(alloc: Global, task: Task) -> Found
    ensures { IsOfTask task.entry result }
{
    let passes = passes_alone(
        alloc,
        task.updates,
        task.transcripts,
        task.profile,
        task.part,
    );
    Found {
        passes,
        lines: make_lines(alloc, task.session, task.transcript),
    }
}

/// Whether a part passes. If memory is refused to its audit, it doesn't.
fn passes_alone(
    alloc: Global,
    updates: &[Update],
    transcripts: &[Transcript],
    profile: Profile,
    part: Part,
) -> bool
    ensures { result ≡ true → PassesInPart (is_member part) profile updates.now transcripts.now }
{
    passes_in_part(alloc, updates, transcripts, profile, part).unwrap_or(false)
}

/// The text of the lines of a session.
fn make_lines(alloc: Global, session: u64, transcript: &Transcript) -> Result<Vec<u8>, Refusal>
    ensures { IfOk result (λ text. text.items ≡ session_text session transcript.now) }
{
    let mut text = Vec::new(alloc);
    for entry in &transcript.entries {
        let line = Line::Served {
            session,
            call: entry.call,
            answer: entry.answer,
        };
        push_line(&mut text, &line)?;
    }
    Ok(text)
}

/// Joins the threads, session by session.
fn join_all<R: Threads>(rt: &R, alloc: Global, started: VecDeque<SessionThread>) -> Joined
    ensures passes { result.passes ≡ true → All PassesOf started.entry.items }
    ensures lines { IfOk result.texts
        (λ texts. flat_map (λ text. text.items) texts.items ≡ flat_map text_of started.entry.items) }
{
    let mut started = started;
    let mut joined = Joined {
        passes: true,
        texts: Ok(VecDeque::new(alloc)),
    };
    'threads: while let Some(thread) = started.pop_front() {
        joined = joined.with(join(rt, thread));
    }
    joined
}

impl Joined {
    /// With what one thread more found and made.
    fn with(self, found: Found) -> Joined
        ensures before { result.passes ≡ true → self.passes ≡ true }
        ensures found { result.passes ≡ true → found.passes ≡ true }
        ensures lines { IfOk result.texts (λ texts. IsOkAnd self.texts (λ before. IsOkAnd found.lines (λ text.
            texts.items ≡ before.items ++ text ∷ []))) }
    {
        Joined {
            passes: self.passes && found.passes,
            texts: with_text(self.texts, found.lines),
        }
    }
}

/// The texts, and one behind them.
fn with_text(
    texts: Result<VecDeque<Vec<u8>>, Refusal>,
    text: Result<Vec<u8>, Refusal>,
) -> Result<VecDeque<Vec<u8>>, Refusal>
    ensures { IfOk result (λ all. IsOkAnd texts
        (λ before. IsOkAnd text (λ last. all.items ≡ before.items ++ last ∷ []))) }
{
    let mut texts = texts?;
    let Ok(()) = texts.push_back(text?) else {
        return Err(Refusal::OutOfMemory);
    };
    Ok(texts)
}

/// What the thread of a session found and made.
fn join<R: Threads>(rt: &R, thread: SessionThread) -> Found
    ensures passes { result.passes ≡ true → PassesOf thread.entry }
    ensures lines { IfOk result.lines (λ text. text.items ≡ text_of thread.entry) }
{
    thread.handle.join(rt)
}

/// The output with the texts behind it.
fn append_all(output: Vec<u8>, texts: VecDeque<Vec<u8>>) -> Result<Vec<u8>, AllocError>
    ensures { IfOk result (λ whole. whole.items ≡ output.items ++ flat_map (λ text. text.items) texts.items) }
{
    let mut output = output;
    let mut texts = texts;
    'texts: while let Some(text) = texts.pop_front() {
        output.extend_from_slice(&text)?;
    }
    Ok(output)
}
