//! The lines of a script, as the crate `csv` is given them.

use memchr::memchr2;
use std::alloc::Global;
use std::cell::Cell;
use std::io;
use std::io::{BufRead, BufReader, ErrorKind, Read};

/// The byte order mark, which is skipped at the start of a script.
const BYTE_ORDER_MARK: &[u8] = b"\xef\xbb\xbf";

/// A reader that hands on the lines of a script without the comments between records, and keeps those of one record,
/// and a comment on the line above it.
///
/// Each read hands on octets of one line, so that whoever reads a record has asked for the lines of the record, and for
/// nothing behind them. An octet behind the end of a line is not waited for: a terminal would not send it. So the line
/// feed of a carriage return and a line feed is handed on as a line of its own, which isn't counted.
#[derive(Drop)]
pub(crate) struct ScriptLines<R: Read> {
    source: BufReader<R>,
    /// The lines of the record, with their ends, or one that is skipped.
    lines: Vec<u8>,
    /// How many octets of them are handed on.
    handed_on: usize,
    /// The last comment.
    comment: Vec<u8>,
    /// It is on the last line that was read between records.
    is_last: bool,
    /// It is on the line above the record.
    is_above: bool,
    /// The number of the first one.
    line: u64,
    ends: LineEnds,
    /// The source has ended, and is not asked again.
    has_ended: bool,
    /// The next line is no part of the record that is kept. It is a cell, since `csv` lends its reader only as shared.
    is_between: Cell<bool>,
}

impl<R: Read> ScriptLines<R> {
    /// A script of which nothing is read yet.
    pub(crate) fn new(alloc: Global, reader: R) -> io::Result<ScriptLines<R>>
    where
        R: Drop,
    {
        Ok(ScriptLines {
            source: BufReader::new(alloc, reader)?,
            lines: Vec::new(alloc),
            handed_on: 0,
            comment: Vec::new(alloc),
            is_last: false,
            is_above: false,
            line: 1,
            ends: LineEnds {
                count: 0,
                is_behind_return: false,
            },
            has_ended: false,
            is_between: Cell::new(true),
        })
    }

    /// Says that the record is read, and that the next line begins another one or is skipped.
    pub(crate) fn end_record(&self) {
        self.is_between.set(true);
    }

    /// The number of the line on which the record begins, from 1.
    pub(crate) fn line(&self) -> u64 {
        self.line
    }

    /// The record as it was written, without the end of its last line. If the script ended before that line did, the
    /// last octet is no such end, but may be a line end in a quoted part.
    pub(crate) fn text(&self) -> &[u8] {
        text_of(&self.lines, self.line, self.has_ended)
    }

    /// The comment on the line above the record, without the end of that line.
    pub(crate) fn comment(&self) -> Option<&[u8]> {
        if self.is_above {
            Some(&self.comment)
        } else {
            None
        }
    }

    /// Reads the first line of a record, or one that is skipped: it is empty or a comment. Of this only the end is
    /// handed on, which `csv` skips.
    fn read_first(&mut self) -> io::Result<()> {
        self.lines.clear();
        self.handed_on = 0;
        self.line = self.ends.count.saturating_add(1);
        self.append_line()?;
        let text = text_of(&self.lines, self.line, self.has_ended);
        match text.first() {
            Some(b'#') => {
                self.comment.clear();
                self.comment.extend_from_slice(text)?;
                self.is_last = true;
                self.skip_line();
            }
            None => {
                // The line feed behind a carriage return is no line between the comment and the record.
                self.is_last = self.is_last && self.ends.count < self.line;
                self.skip_line();
            }
            Some(_) => {
                self.is_above = self.is_last;
                self.is_last = false;
                self.is_between.set(false);
            }
        }
        Ok(())
    }

    /// Leaves of the line only its end to hand on.
    fn skip_line(&mut self) {
        let end = if self.has_ended { 0 } else { 1 };
        self.handed_on = self.lines.len().saturating_sub(end);
    }

    /// Appends the next line, or what there is of it if the script ends.
    fn append_line(&mut self) -> io::Result<()> {
        for _ in 0..u64::MAX {
            if self.append_part()? {
                break;
            }
        }
        Ok(())
    }

    /// Appends the octets of a line that are there, and returns whether the line or the script has ended.
    fn append_part(&mut self) -> io::Result<bool> {
        if let Err(error) = self.source.fill_buf() {
            // A signal interrupts a read that nothing is wrong with. Any other failure is one of the input, also if the
            // system has no memory for it: `OutOfMemory` is for memory that is refused here.
            return match error.kind() {
                ErrorKind::Interrupted => Ok(false),
                _ => Err(io::Error::from(ErrorKind::Other)),
            };
        }
        let octets = self.source.buffer();
        if octets.is_empty() {
            self.has_ended = true;
            return Ok(true);
        }
        let end = memchr2(b'\n', b'\r', octets);
        let count = end.map_or(octets.len(), |at| at.saturating_add(1));
        let part = octets.get(..count).unwrap_or(octets);
        self.ends.pass(part);
        self.lines.extend_from_slice(part)?;
        self.source.consume(count);
        Ok(end.is_some())
    }
}

impl<R: Read> Read for ScriptLines<R> {
    fn read(&mut self, buf: &mut [u8]) -> io::Result<usize> {
        if self.handed_on >= self.lines.len() && !self.has_ended {
            if self.is_between.get() {
                self.read_first()?;
            } else {
                self.append_line()?;
            }
        }
        let mut left = self.lines.get(self.handed_on..).unwrap_or(&[]);
        let count = left.read(buf)?;
        self.handed_on = self.handed_on.saturating_add(count);
        Ok(count)
    }
}

/// The text of lines of which the first one has this number, without the end of the last one. If the script has ended,
/// the last octet is no such end.
fn text_of(lines: &[u8], line: u64, has_ended: bool) -> &[u8] {
    let text = match lines.strip_prefix(BYTE_ORDER_MARK) {
        Some(rest) if line == 1 => rest,
        _ => lines,
    };
    match text.split_last() {
        Some((_, rest)) if !has_ended => rest,
        _ => text,
    }
}

/// How many lines have ended: each with a line feed, with a carriage return, or with both.
#[derive(Clone, Copy)]
struct LineEnds {
    count: u64,
    is_behind_return: bool,
}

impl LineEnds {
    /// Counts the ends among the next octets.
    fn pass(&mut self, octets: &[u8]) {
        for octet in octets {
            if *octet == b'\r' || (*octet == b'\n' && !self.is_behind_return) {
                self.count = self.count.saturating_add(1);
            }
            self.is_behind_return = *octet == b'\r';
        }
    }
}
