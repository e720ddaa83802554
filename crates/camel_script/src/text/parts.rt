ghost use Rattle.std.specs.Prelude.{◌≡◌, ◌+◌, ◌<◌, ◌==◌, ◌∷◌, All, IfSome, IsNone, ℕ, false, length, position};
ghost use Rattle.std.specs.Option.{option_map};
ghost use Rattle.camel_script.specs.Fields.{part, parts_behind, parts_of};

/// The separator of the parts of an item.
pub(crate) const ITEM_SEPARATOR: u8 = b':';

/// The separator of the parts of NUMBER.
pub(crate) const NUMBER_SEPARATOR: u8 = b'/';

/// The separator of the elements of a list.
pub(crate) const ELEMENT_SEPARATOR: u8 = b'+';

/// How many parts a text has, at least one.
pub(crate) fn count_parts(text: &[u8], separator: u8) -> usize
    ensures { result ≡ length (parts_of separator text.now) }
{
    let mut separators = 0;
    for character in text {
        separators += usize::from(*character == separator);
    }
    separators + 1
}

/// The first part of a text, and what is behind its separator: empty where there is none.
pub(crate) fn cut_part(text: &[u8], separator: u8) -> (&[u8], &[u8])
    ensures first { result.0.now ≡ part separator text.now 0 }
    ensures others { (at : ℕ) → part separator text.now (at + 1) ≡ part separator result.1.now at }
{
    match separator_place(text, separator) {
        Some(at) => (&text[..at], &text[at + 1..]),
        None => (text, &[]),
    }
}

/// The first part of a text, and what is behind its separator, if there is one.
pub(crate) fn split_part(text: &[u8], separator: u8) -> (&[u8], Option<&[u8]>)
    ensures parts { parts_of separator text.now
        ≡ result.0.now ∷ parts_behind separator (option_map (λ rest. rest.now) result.1) }
    ensures less { IfSome result.1 (λ rest. length rest.now < length text.now) }
{
    match separator_place(text, separator) {
        Some(at) => (&text[..at], Some(&text[at + 1..])),
        None => (text, None),
    }
}

/// The place of the first separator.
fn separator_place(text: &[u8], separator: u8) -> Option<usize>
    ensures first { result ≡ position (λ character. character == separator) text.now }
    ensures none { IsNone result → All (λ character. (character == separator) ≡ false) text.now }
{
    text.iter().position(|character| *character == separator)
}
