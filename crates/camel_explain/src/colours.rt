use std::alloc::AllocError;

/// Whether what is printed is coloured.
#[derive(Clone, Copy)]
pub(crate) struct Colours {
    pub(crate) are_on: bool,
}

/// The colours of a terminal, by what they are for.
#[derive(Clone, Copy, PartialEq, Eq)]
pub(crate) enum Colour {
    /// The number of a line.
    Place,
    /// The answer of a record that is taken.
    Taken,
    /// A refusal, or a call that triggers nothing.
    NotTaken,
    /// A fault.
    Fault,
}

impl Colours {
    /// Appends a text in a colour.
    pub(crate) fn append(
        self,
        out: &mut String,
        colour: Colour,
        text: &str,
    ) -> Result<(), AllocError> {
        if !self.are_on {
            return out.push_str(text);
        }
        let code = match colour {
            Colour::Place => "2",
            Colour::Taken => "32",
            Colour::NotTaken => "33",
            Colour::Fault => "31",
        };
        write!(out, "\x1b[{code}m{text}\x1b[0m")
    }
}
