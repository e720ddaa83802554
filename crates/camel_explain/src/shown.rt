//! How octets, IMSIs and addresses are printed.

use camel_tbcd::{Address, Imsi};
use std::{fmt, str};
use ucd_props::is_bidi_control;

/// A text that somebody else wrote. Control characters, and those that put a text into another order, are printed as
/// escapes, so that a terminal doesn't obey them. So are octets if the text is no UTF-8.
#[derive(Clone, Copy)]
pub(crate) struct Shown<'a>(pub(crate) &'a [u8]);

impl<'a> fmt::Display for Shown<'a> {
    fn fmt<W: fmt::Write>(&self, f: &mut fmt::Formatter<W>) -> fmt::Result {
        match str::from_utf8(self.0) {
            Ok(text) => show_text(f, text),
            Err(_) => show_octets(f, self.0),
        }
    }
}

fn show_text<W: fmt::Write>(f: &mut fmt::Formatter<W>, text: &str) -> fmt::Result {
    for character in text.chars() {
        match character {
            '\n' => f.write_str("\\n")?,
            '\r' => f.write_str("\\r")?,
            '\t' => f.write_str("\\t")?,
            control if control.is_control() || is_bidi_control(control) => {
                write!(f, "\\u{{{:x}}}", u32::from(control))?
            }
            other => f.write_char(other)?,
        }
    }
    Ok(())
}

fn show_octets<W: fmt::Write>(f: &mut fmt::Formatter<W>, octets: &[u8]) -> fmt::Result {
    for octet in octets {
        if octet.is_ascii_graphic() || *octet == b' ' {
            f.write_char(char::from(*octet))?;
        } else {
            write!(f, "\\x{octet:02x}")?;
        }
    }
    Ok(())
}

/// Octets in hexadecimal digits.
#[derive(Clone, Copy)]
pub(crate) struct Octets<'a>(pub(crate) &'a [u8]);

impl<'a> fmt::Display for Octets<'a> {
    fn fmt<W: fmt::Write>(&self, f: &mut fmt::Formatter<W>) -> fmt::Result {
        for octet in self.0 {
            write!(f, "{octet:02x}")?;
        }
        Ok(())
    }
}

/// An IMSI in its digits.
#[derive(Clone, Copy)]
pub(crate) struct ShownImsi<'a>(pub(crate) &'a Imsi);

impl<'a> fmt::Display for ShownImsi<'a> {
    fn fmt<W: fmt::Write>(&self, f: &mut fmt::Formatter<W>) -> fmt::Result {
        let digits = self.0.digits();
        for digit in digits.as_slice() {
            write!(f, "{digit}")?;
        }
        Ok(())
    }
}

/// The digits of an address, as TS 29.002 names them: `*`, `#`, `a`, `b` and `c` for 10 to 14; `none` if it has none.
#[derive(Clone, Copy)]
pub(crate) struct ShownDigits<'a>(pub(crate) Address<'a>);

impl<'a> fmt::Display for ShownDigits<'a> {
    fn fmt<W: fmt::Write>(&self, f: &mut fmt::Formatter<W>) -> fmt::Result {
        let digits = self.0.digits();
        if digits.is_empty() {
            return f.write_str("none");
        }
        for at in 0..digits.len() {
            match digits.get(at) {
                Some(10) => f.write_char('*')?,
                Some(11) => f.write_char('#')?,
                Some(12) => f.write_char('a')?,
                Some(13) => f.write_char('b')?,
                Some(14) => f.write_char('c')?,
                Some(digit) => write!(f, "{digit}")?,
                None => {}
            }
        }
        Ok(())
    }
}
