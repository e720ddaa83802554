//! What texts are called, and what is wrong with one that can't be read.

use crate::mistakes::{ADDRESS_FORM, is_like_digits};
use crate::shown::Shown;
use camel_script::{
    Expected, MAX_DECIMAL_DIGITS, is_octets, parse_basic_service, parse_decimal, parse_match_type,
};
use camel_tbcd::{MAX_IMSI_DIGITS, MIN_IMSI_DIGITS};
use std::alloc::AllocError;

/// The word that shows what is stored. No record begins with it.
const SHOW: &str = "show";

/// The name of a text in docs/SCRIPT.md.
pub(crate) fn name_of(expected: Expected) -> &'static str {
    match expected {
        Expected::Word => "word",
        Expected::Imsi => "IMSI",
        Expected::Withdrawal => "WHAT",
        Expected::CallDetectionPoint | Expected::DetectionPoint => "DP",
        Expected::BasicService => "BASIC",
        Expected::Destination => "DEST",
        Expected::Forwarded | Expected::ItemCallType => "TYPE",
        Expected::Cause => "CAUSE",
        Expected::ItemName => "name",
        Expected::ServiceKey => "KEY",
        Expected::GsmScfAddress => "SCF",
        Expected::Handling => "HANDLING",
        Expected::NumberCriterion => "NUMBER",
        Expected::BasicServices => "BASICS",
        Expected::Causes => "CAUSES",
        Expected::Nothing => "nothing",
    }
}

/// Appends what is wrong with a text of a kind.
pub(crate) fn say_unreadable(
    out: &mut String,
    expected: Expected,
    text: &[u8],
) -> Result<(), AllocError> {
    match expected {
        Expected::Word if text == SHOW.as_bytes() => {
            write!(out, "the IMSI of a show stands behind a space")
        }
        Expected::Word if is_utf_16(text) => {
            write!(
                out,
                "the script seems to be in UTF-16, and is read as UTF-8"
            )
        }
        Expected::Word if is_comment(text) => write!(out, "a comment is a line that begins with #"),
        Expected::Word if has_semicolons(text) => {
            write!(out, "commas separate the fields, not semicolons")
        }
        Expected::Imsi => say_imsi(out, text),
        Expected::Word
        | Expected::Withdrawal
        | Expected::CallDetectionPoint
        | Expected::Forwarded
        | Expected::ItemCallType
        | Expected::ItemName => say_not_one_of(out, expected, text),
        Expected::NumberCriterion => say_number(out, text),
        Expected::BasicServices => say_list(out, Kind::Code, text),
        Expected::Causes => say_list(out, Kind::Cause, text),
        Expected::BasicService => Kind::Code.say_why_not(out, text),
        Expected::Destination | Expected::GsmScfAddress => Kind::ListedNumber.say_why_not(
            out, text,
        ),
        Expected::Cause | Expected::DetectionPoint => Kind::Cause.say_why_not(out, text),
        Expected::ServiceKey | Expected::Handling => Kind::Integer.say_why_not(out, text),
        Expected::Nothing => Ok(()),
    }
}

/// Whether a word has what only UTF-16 has: its byte order mark, or half of a character of ASCII.
fn is_utf_16(text: &[u8]) -> bool {
    text.starts_with(b"\xff\xfe") || text.starts_with(b"\xfe\xff") || text.contains(&0)
}

/// Whether a comment is meant: the word begins as comments of other languages do, or with spaces before the `#`.
fn is_comment(text: &[u8]) -> bool {
    let begin = text.trim_ascii();
    begin.starts_with(b"//") || begin.starts_with(b";") || begin.starts_with(b"#")
}

/// Whether semicolons separate the fields: a word of records stands before the first one.
fn has_semicolons(text: &[u8]) -> bool {
    let mut parts = text.split(|octet| *octet == b';');
    match (parts.next(), parts.next()) {
        (Some(first), Some(_)) => Expected::Word
            .words()
            .iter()
            .any(|word| first.eq_ignore_ascii_case(word.as_bytes())),
        _ => false,
    }
}

/// Appends that a text is none of the words that are read there, or one of them in upper case or with spaces around it.
fn say_not_one_of(out: &mut String, expected: Expected, text: &[u8]) -> Result<(), AllocError> {
    let words = expected.words();
    for word in words {
        if say_written_otherwise(out, text, word)? {
            return Ok(());
        }
    }
    if expected == Expected::Word && say_written_otherwise(out, text, SHOW)? {
        return Ok(());
    }
    write!(out, "not one of ")?;
    match expected {
        Expected::Word => {
            say_words(out, words, ", ")?;
            write!(out, " and {SHOW}")
        }
        Expected::Forwarded => write!(out, "f (forwarded) and n (not forwarded)"),
        Expected::ItemCallType => write!(out, "f (forwarded) and n (not forwarded), nor empty"),
        Expected::CallDetectionPoint => {
            say_words(out, words, " and ")?;
            write!(out, ", where calls are decided")
        }
        _ => say_words(out, words, " and "),
    }
}

/// Appends words, before the last of which this stands.
fn say_words(out: &mut String, words: &[&str], before_last: &str) -> Result<(), AllocError> {
    for (at, word) in words.iter().enumerate() {
        let before = match at {
            0 => "",
            _ if at.saturating_add(1) < words.len() => ", ",
            _ => before_last,
        };
        write!(out, "{before}{word}")?;
    }
    Ok(())
}

/// Appends how a text has to be written to be a word, if it differs only so. Returns whether it does.
fn say_written_otherwise(out: &mut String, text: &[u8], word: &str) -> Result<bool, AllocError> {
    let inner = without_spaces(text);
    if !inner.eq_ignore_ascii_case(word.as_bytes()) {
        return Ok(false);
    }
    let how = match (inner.len() < text.len(), inner == word.as_bytes()) {
        (false, _) => "in lower case",
        (true, true) => "without spaces around it",
        (true, false) => "in lower case and without spaces around it",
    };
    write!(out, "it has to be {how}, {word}")?;
    Ok(true)
}

/// A text without the spaces around it. One with a control character, such as a line end, stays as it is.
fn without_spaces(text: &[u8]) -> &[u8] {
    if text.iter().any(|octet| octet.is_ascii_control()) {
        return text;
    }
    text.trim_ascii()
}

/// The kinds of texts that have a form of their own, which are elements of lists too.
#[derive(Clone, Copy)]
enum Kind {
    Code,
    Cause,
    ListedNumber,
    Length,
    Integer,
}

impl Kind {
    fn name(self) -> &'static str {
        match self {
            Kind::Code => "code",
            Kind::Cause => "cause",
            Kind::ListedNumber => "listed number",
            Kind::Length => "length",
            Kind::Integer => "number",
        }
    }

    /// Whether the reader takes a text of this kind.
    fn is_text(self, text: &[u8]) -> bool {
        match self {
            Kind::Code => parse_basic_service(text).is_ok(),
            Kind::ListedNumber => is_octets(text),
            Kind::Cause | Kind::Length | Kind::Integer => {
                parse_decimal(text, self.greatest()).is_ok()
            }
        }
    }

    /// The greatest value of a decimal of this kind.
    fn greatest(self) -> u32 {
        match self {
            Kind::Integer => u32::MAX,
            _ => u32::from(u8::MAX),
        }
    }

    /// Appends why a text is none of this kind.
    fn say_why_not(self, out: &mut String, text: &[u8]) -> Result<(), AllocError> {
        match self {
            Kind::Code => say_no_service(out, text),
            Kind::ListedNumber => say_no_octets(out, text),
            Kind::Cause | Kind::Length | Kind::Integer => {
                say_no_decimal(out, text, self.greatest())
            }
        }
    }
}

fn say_no_decimal(out: &mut String, text: &[u8], greatest: u32) -> Result<(), AllocError> {
    if text.is_empty() {
        return write!(out, "a decimal number is expected");
    }
    if say_no_digits(out, text)? {
        return Ok(());
    }
    match text.len() {
        0..=MAX_DECIMAL_DIGITS => write!(out, "over {greatest}"),
        count => write!(
            out,
            "{count} digits, and at most {MAX_DECIMAL_DIGITS} are read"
        ),
    }
}

/// Appends which character is no decimal digit, if one isn't.
fn say_no_digits(out: &mut String, text: &[u8]) -> Result<bool, AllocError> {
    let Some(at) = text.iter().position(|octet| !octet.is_ascii_digit()) else {
        return Ok(false);
    };
    say_no_digit(out, "decimal", text, at)?;
    Ok(true)
}

/// Appends that the character at a place is no digit of a kind. A space and a tab, hard to see, are named.
fn say_no_digit(out: &mut String, kind: &str, text: &[u8], at: usize) -> Result<(), AllocError> {
    match text.get(at) {
        Some(b' ') => write!(out, "a space is no {kind} digit"),
        Some(b'\t') => write!(out, "a tab is no {kind} digit"),
        _ => {
            let character = Shown(character_at(text, at));
            write!(out, "\"{character}\" is no {kind} digit")
        }
    }
}

fn say_imsi(out: &mut String, text: &[u8]) -> Result<(), AllocError> {
    let is_in_range = (MIN_IMSI_DIGITS..=MAX_IMSI_DIGITS).contains(&text.len());
    if !is_in_range {
        write!(
            out,
            "{} character{}, and an IMSI has {MIN_IMSI_DIGITS} to {MAX_IMSI_DIGITS} digits",
            text.len(),
            if text.len() == 1 { "" } else { "s" }
        )?;
    }
    match text.iter().position(|octet| !octet.is_ascii_digit()) {
        Some(at) => {
            write!(out, "{}", if is_in_range { "" } else { "; " })?;
            say_no_digit(out, "decimal", text, at)
        }
        None => Ok(()),
    }
}

/// Appends why a text is not pairs of hexadecimal digits, and what an address has if it looks like plain digits.
fn say_no_octets(out: &mut String, text: &[u8]) -> Result<(), AllocError> {
    match text.iter().position(|octet| !octet.is_ascii_hexdigit()) {
        Some(at) => say_no_digit(out, "hexadecimal", text, at)?,
        None => write!(
            out,
            "{} hexadecimal digits, which is an odd number",
            text.len()
        )?,
    }
    if is_like_digits(text) {
        write!(out, "; {ADDRESS_FORM}")?;
    }
    Ok(())
}

/// Appends why a text is no basic service.
fn say_no_service(out: &mut String, text: &[u8]) -> Result<(), AllocError> {
    match text.split_first() {
        Some((b't' | b'b', code)) => write!(
            out,
            "two hexadecimal digits have to follow the letter, not \"{}\"",
            Shown(code)
        ),
        Some((b'T' | b'B', [_, _])) => write!(out, "its letter has to be in lower case"),
        _ => write!(out, "a letter t or b is missing"),
    }
}

/// The character that begins at a place: more octets than one if it is UTF-8.
fn character_at(text: &[u8], at: usize) -> &[u8] {
    let behind = &text[at.min(text.len())..];
    let more = behind
        .iter()
        .skip(1)
        .take_while(|octet| (**octet & 0xc0) == 0x80)
        .count();
    &behind[..more.saturating_add(1).min(behind.len())]
}

/// Appends which element of a list is wrong, and why: the first one. Returns whether one is.
fn say_element(out: &mut String, kind: Kind, text: &[u8]) -> Result<bool, AllocError> {
    for (at, element) in text.split(|octet| *octet == b'+').enumerate() {
        if !kind.is_text(element) {
            let number = at.saturating_add(1);
            write!(out, "{} {number} \"{}\": ", kind.name(), Shown(element))?;
            kind.say_why_not(out, element)?;
            return Ok(true);
        }
    }
    Ok(false)
}

/// Appends which element of a list is wrong, if one is.
fn say_list(out: &mut String, kind: Kind, text: &[u8]) -> Result<(), AllocError> {
    say_element(out, kind, text)?;
    Ok(())
}

/// Appends what is wrong with NUMBER, whose parts are its match type, its numbers and its lengths.
fn say_number(out: &mut String, text: &[u8]) -> Result<(), AllocError> {
    let mut parts = text.split(|octet| *octet == b'/');
    let (Some(match_type), Some(numbers), Some(lengths), None) = (
        parts.next(),
        parts.next(),
        parts.next(),
        parts.next(),
    ) else {
        let count = text.split(|octet| *octet == b'/').count();
        return write!(
            out,
            "{count} parts, not 3: match type/listed numbers/lengths"
        );
    };
    if parse_match_type(match_type).is_err() {
        return write!(
            out,
            "match type \"{}\" is neither e (enabling) nor i (inhibiting)",
            Shown(match_type)
        );
    }
    if !numbers.is_empty() && say_element(out, Kind::ListedNumber, numbers)? {
        return Ok(());
    }
    say_list(out, Kind::Length, lengths)
}
