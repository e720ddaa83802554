//! The explanation of one record after the other.

use crate::colours::{Colour, Colours};
use crate::counts::Counts;
use crate::listing::Listing;
use crate::mistakes::say_mistake;
use crate::notes::{note_destination, say_notes};
use crate::reasons::say_reason;
use crate::refusals::say_store_refusal;
use crate::session_word::{HELP, SessionWord, session_word_of};
use crate::shown::Shown;
use crate::stop::Stop;
use crate::stored::{INDENT, append_store, say_stored};
use camel_criteria::Refusal;
use camel_rows::Outcome;
use camel_script::{Line, Mistake, Record, ScriptFault, parse_fields, push_line};
use camel_script_replay::{MAX_RECORDS, Store};
use camel_tbcd::Profile;
use std::alloc::{AllocError, Global};
use std::io::Read;

/// What is printed of a record.
#[derive(Clone, Copy)]
pub(crate) struct View {
    /// Records are typed at a prompt. They are not printed, and there are words for the session.
    pub(crate) is_at_prompt: bool,
    /// Records of which there is nothing to say are left out.
    pub(crate) is_quiet: bool,
    /// Only records with a fault or a refusal are printed.
    pub(crate) only_mistakes: bool,
    /// Nothing is run.
    pub(crate) only_checks: bool,
    pub(crate) colours: Colours,
}

/// A store, and what was counted and said of the records so far.
#[derive(Drop)]
pub(crate) struct Explainer {
    alloc: Global,
    pub(crate) store: Store,
    profile: Profile,
    view: View,
    pub(crate) counts: Counts,
    /// What is said and not written yet.
    pub(crate) said: String,
    /// The place of the record that is read.
    record: Record,
    /// The line of its answer.
    line: Vec<u8>,
    /// The sentence of which it is the subject.
    sentence: String,
    /// The lines of its notes.
    notes: String,
}

impl Explainer {
    pub(crate) fn new(alloc: Global, limit: u64, profile: Profile, view: View) -> Explainer {
        Explainer {
            alloc,
            store: Store::new(alloc, limit, profile),
            profile,
            view,
            counts: Counts::default(),
            said: String::new(alloc),
            record: Record::Publish,
            line: Vec::new(alloc),
            sentence: String::new(alloc),
            notes: String::new(alloc),
        }
    }

    /// Explains the record that was read last, and returns whether the session goes on.
    pub(crate) fn explain<R: Read>(&mut self, listing: &Listing<R>) -> Result<bool, Stop> {
        if let Some(asked) = asked_of(listing.text()) {
            self.show(listing, asked)?;
            return Ok(true);
        }
        let session_word = match self.view.is_at_prompt {
            true => session_word_of(listing.text()),
            false => None,
        };
        match session_word {
            Some(SessionWord::Quit) => return Ok(false),
            Some(SessionWord::Help) => self.said.push_str(HELP)?,
            None => self.explain_record(listing)?,
        }
        Ok(true)
    }

    /// Explains a text that is a record.
    fn explain_record<R: Read>(&mut self, listing: &Listing<R>) -> Result<(), Stop> {
        if self.counts.records() >= MAX_RECORDS {
            return Err(Stop::TooManyRecords);
        }
        self.counts.count_record();
        self.line.clear();
        self.sentence.clear();
        self.notes.clear();
        let mistake = match parse_fields(self.alloc, listing.fields(), &mut self.record) {
            Ok(()) => return Ok(self.explain_read(listing)?),
            Err(mistake) => mistake,
        };
        match mistake.into_record() {
            Ok(refused) => {
                self.record = refused;
                self.say_first_mistake(listing, &mistake)?;
                Ok(self.explain_read(listing)?)
            }
            Err(ScriptFault::OutOfMemory) => Err(Stop::Memory),
            Err(fault) => {
                self.say_first_mistake(listing, &mistake)?;
                Ok(self.explain_fault(listing, fault.code())?)
            }
        }
    }

    /// Explains a record whose texts have a fault.
    fn explain_fault<R: Read>(
        &mut self,
        listing: &Listing<R>,
        code: u16,
    ) -> Result<(), AllocError> {
        self.counts.count_fault();
        self.say_head(listing)?;
        self.say_line(Colour::Fault, &format!(in self.alloc; "fault {code}")?)?;
        self.say_sentence()
    }

    /// Explains a record whose texts can be read.
    fn explain_read<R: Read>(&mut self, listing: &Listing<R>) -> Result<(), Refusal> {
        if self.view.only_checks && !matches!(self.record, Record::Refused(_)) {
            return Ok(());
        }
        self.note_record(listing)?;
        let line = self.store.answer_from(&mut self.record)?;
        push_line(&mut self.line, &line)?;
        self.counts.count(&line);
        self.say_why(listing, &line)?;
        if matches!(line, Line::Refused(_)) {
            self.notes.clear();
        }
        if !self.is_wanted(&line) {
            return Ok(());
        }
        self.say_head(listing)?;
        self.say_answer(colour_of(&line))?;
        self.say_sentence()?;
        Ok(self.said.push_str(&self.notes)?)
    }

    /// Puts the notes on an update or a call in their place, before it is answered.
    fn note_record<R: Read>(&mut self, listing: &Listing<R>) -> Result<(), AllocError> {
        if self.view.only_mistakes {
            return Ok(());
        }
        match &self.record {
            Record::Update(update) => {
                say_notes(&mut self.notes, &self.store, listing.fields(), update.get())
            }
            Record::Call(call) => note_destination(&mut self.notes, listing.fields(), call),
            _ => Ok(()),
        }
    }

    /// Whether a record with this answer is printed.
    fn is_wanted(&self, line: &Line) -> bool {
        if self.view.only_mistakes {
            return matches!(line, Line::Refused(_));
        }
        !self.view.is_quiet || !self.sentence.is_empty() || !self.notes.is_empty()
    }

    /// Puts the sentence of a refusal of the store, or of a call that triggers nothing, in its place.
    fn say_why<R: Read>(&mut self, listing: &Listing<R>, line: &Line) -> Result<(), AllocError> {
        match (line, &self.record) {
            (Line::Refused(code), _) if self.sentence.is_empty() => {
                say_store_refusal(&mut self.sentence, &self.store, listing.fields(), *code)
            }
            (Line::Decided(answer), Record::Call(call)) => match answer.outcome {
                Outcome::NoTrigger(reason) => {
                    say_reason(&mut self.sentence, &self.store, self.profile, call, reason)
                }
                Outcome::Trigger { .. } => Ok(()),
            },
            _ => Ok(()),
        }
    }

    /// Puts the sentence of the record's first mistake in its place.
    fn say_first_mistake<R: Read>(
        &mut self,
        listing: &Listing<R>,
        mistake: &Mistake,
    ) -> Result<(), AllocError> {
        say_mistake(&mut self.sentence, listing.fields(), mistake)?;
        say_lines(&mut self.sentence, listing.text())
    }

    /// Prints the record with the number of its line, and the comment above it.
    fn say_head<R: Read>(&mut self, listing: &Listing<R>) -> Result<(), AllocError> {
        if self.view.is_at_prompt {
            return Ok(());
        }
        if let Some(comment) = listing.comment() {
            writeln!(self.said, "{}", Shown(comment))?;
        }
        let place = format!(in self.alloc; "{}:", listing.line())?;
        self.view
            .colours
            .append(&mut self.said, Colour::Place, &place)?;
        writeln!(self.said, " {}", Shown(listing.text()))
    }

    /// Prints the line of the record's answer, which `camel_replay` gives too.
    fn say_answer(&mut self, colour: Colour) -> Result<(), AllocError> {
        let line = String::from_utf8_lossy(self.alloc, &self.line)?;
        self.say_line(colour, line.trim_end())
    }

    fn say_line(&mut self, colour: Colour, line: &str) -> Result<(), AllocError> {
        self.said.push_str(INDENT)?;
        self.view.colours.append(&mut self.said, colour, line)?;
        self.said.push('\n')
    }

    fn say_sentence(&mut self) -> Result<(), AllocError> {
        if self.sentence.is_empty() {
            return Ok(());
        }
        writeln!(self.said, "{INDENT}{}", self.sentence)
    }

    /// Prints what is stored: of an IMSI, or how much if none is asked for.
    fn show<R: Read>(&mut self, listing: &Listing<R>, asked: &[u8]) -> Result<(), Refusal> {
        if self.view.only_checks || self.view.only_mistakes {
            return Ok(());
        }
        self.say_head(listing)?;
        if asked.is_empty() {
            append_store(&mut self.said, INDENT, &self.store)
        } else {
            say_stored(self.alloc, &mut self.said, &self.store, asked)
        }
    }
}

/// Appends how many lines a record has, if a quote goes on behind the first one: often its other quote is missing.
fn say_lines(out: &mut String, text: &[u8]) -> Result<(), AllocError> {
    let ends = text.iter().filter(|octet| **octet == b'\n').count();
    if ends == 0 {
        return Ok(());
    }
    write!(
        out,
        "; a double quote takes {} lines into this record",
        ends.saturating_add(1)
    )
}

/// The colour of an answer.
fn colour_of(line: &Line) -> Colour {
    match line {
        Line::Refused(_) => Colour::NotTaken,
        Line::Decided(answer) => match answer.outcome {
            Outcome::NoTrigger(_) => Colour::NotTaken,
            Outcome::Trigger { .. } => Colour::Taken,
        },
        _ => Colour::Taken,
    }
}

/// What a `show` asks for: an IMSI, or nothing. None if the text is no `show`.
fn asked_of(text: &[u8]) -> Option<&[u8]> {
    let asked = text.strip_prefix(b"show")?;
    match asked.first() {
        None => Some(asked),
        Some(b' ') => Some(asked.trim_ascii()),
        Some(_) => None,
    }
}
