use camel_script_replay::write_all;
use std::io;
use std::io::Read;

/// What is printed before a line is typed.
const PROMPT: &[u8] = b"camel> ";

/// A reader that prints a prompt before each read, if it has to. A terminal gives a line for each read, so that each
/// line is asked for: that of a record, an empty one, a comment, and one inside of a quote.
#[derive(Drop)]
pub(crate) struct Prompted<'r, R: Read> {
    rt: &'r HostRuntime,
    reader: R,
    has_prompt: bool,
}

impl<'r, R: Read> Prompted<'r, R> {
    pub(crate) fn new(rt: &'r HostRuntime, reader: R, has_prompt: bool) -> Prompted<'r, R> {
        Prompted {
            rt,
            reader,
            has_prompt,
        }
    }
}

impl<'r, R: Read> Read for Prompted<'r, R> {
    fn read(&mut self, buf: &mut [u8]) -> io::Result<usize> {
        if self.has_prompt {
            // Whether it can be written shows at the next answer.
            let _ = write_all(&mut self.rt.stdout(), PROMPT);
        }
        self.reader.read(buf)
    }
}
