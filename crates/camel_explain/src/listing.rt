//! The records of a script, each with its line and its text. The crate `csv` reads them, with the settings by which
//! `camel_script` reads, so that both programs read the same records.

mod script_lines;

use crate::listing::script_lines::ScriptLines;
use csv::{ByteRecord, Error, ErrorKind, Reader, ReaderBuilder};
use std::alloc::Global;
use std::io;
use std::io::Read;

/// Why a script can't be read on.
#[derive(Clone, Copy)]
pub(crate) enum ListingFault {
    /// Out of memory.
    OutOfMemory,
    /// The reader underneath failed.
    Read,
}

/// Reads the records of a script one by one, each with the line on which it begins and its text.
///
/// It holds the text of one record at a time, and asks the reader for nothing behind the line that ends it.
#[derive(Drop)]
pub(crate) struct Listing<R: Read> {
    reader: Reader<ScriptLines<R>>,
    fields: ByteRecord,
}

impl<R: Read> Listing<R> {
    /// A script of which nothing is read yet. The only fault is out of memory.
    pub(crate) fn new(alloc: Global, reader: R) -> Result<Listing<R>, ListingFault>
    where
        R: Drop,
    {
        let Ok(lines) = ScriptLines::new(alloc, reader) else {
            return Err(ListingFault::OutOfMemory);
        };
        let reader = ReaderBuilder::new()
            .has_headers(false)
            .flexible(true)
            .from_reader(alloc, lines);
        Ok(Listing {
            reader,
            fields: ByteRecord::new(alloc),
        })
    }

    /// Reads the next record, and returns false at the end of the script. After a fault there is no record to read.
    ///
    /// Before the first record, after a fault and at the end, the line, the text and the fields are not specified.
    pub(crate) fn read(&mut self) -> Result<bool, ListingFault> {
        self.reader.get_ref().end_record();
        match self.reader.read_byte_record(&mut self.fields) {
            Ok(found) => Ok(found),
            Err(error) => Err(fault_of(&error)),
        }
    }

    /// The number of the line on which the record begins, from 1.
    pub(crate) fn line(&self) -> u64 {
        self.reader.get_ref().line()
    }

    /// The record as it was written, without the end of its last line.
    pub(crate) fn text(&self) -> &[u8] {
        self.reader.get_ref().text()
    }

    /// The comment on the line above the record, if there is one.
    pub(crate) fn comment(&self) -> Option<&[u8]> {
        self.reader.get_ref().comment()
    }

    /// The fields of the record.
    pub(crate) fn fields(&self) -> &ByteRecord {
        &self.fields
    }
}

/// The fault of a CSV error. Memory that is refused to the lines of the script comes as an error of their reader.
fn fault_of(error: &Error) -> ListingFault {
    match error.kind() {
        ErrorKind::OutOfMemory => ListingFault::OutOfMemory,
        ErrorKind::Io(cause) if cause.kind() == io::ErrorKind::OutOfMemory => {
            ListingFault::OutOfMemory
        }
        _ => ListingFault::Read,
    }
}
