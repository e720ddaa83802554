ghost use Rattle.camel_reading.specs.Reading.{ReadsAs};
ghost use Rattle.camel_script.specs.Item.{number_criterion_from, number_texts_of, number_texts_of_parts};
ghost use Rattle.camel_script.specs.Fields.{IsMemory};

use crate::text::Octets;
use crate::text::lists::{make_isdn_addresses, parse_octets_list, parse_small_decimals};
use crate::text::parts::{NUMBER_SEPARATOR, count_parts, cut_part};
use crate::{RecordFault, parse_match_type};
use camel_criteria::{MatchType, NumberCriterion};
use std::alloc::Global;
use std::marker::Model;

/// The texts of a destination number criterion, whose data are not checked yet.
#[derive(Drop)]
pub(crate) struct NumberTexts {
    match_type: MatchType,
    numbers: Vec<Octets>,
    lengths: Vec<u8>,
}

impl Model for NumberTexts {
    ghost use Rattle.camel_script.specs.Item.{NumberTextsData};

    ghost Value = { NumberTextsData };

    ghost view = { λ a. record { match_type = a.match_type; numbers = a.numbers.items; lengths = a.lengths.items } };
}

/// Reads the texts of NUMBER, which is empty for no criterion.
#[tactic(auto, unfolding(crate::specs::Item::number_texts_of))]
pub(crate) fn parse_number_texts(
    alloc: Global,
    text: &[u8],
) -> Result<Option<NumberTexts>, RecordFault>
    ensures { ReadsAs IsMemory result (number_texts_of text.now) }
{
    if text.is_empty() {
        return Ok(None);
    }
    Ok(Some(parse_number_parts(alloc, text)?))
}

#[tactic(auto, unfolding(crate::specs::Item::number_texts_of_parts))]
fn parse_number_parts(alloc: Global, text: &[u8]) -> Result<NumberTexts, RecordFault>
    ensures { ReadsAs IsMemory result (number_texts_of_parts text.now) }
{
    if count_parts(text, NUMBER_SEPARATOR) != 3 {
        return Err(RecordFault::FieldCount);
    }
    let (match_type, rest) = cut_part(text, NUMBER_SEPARATOR);
    let (numbers, rest) = cut_part(rest, NUMBER_SEPARATOR);
    let (lengths, _rest) = cut_part(rest, NUMBER_SEPARATOR);
    Ok(NumberTexts {
        match_type: parse_match_type(match_type)?,
        numbers: parse_octets_list(alloc, numbers)?,
        lengths: parse_small_decimals(alloc, lengths)?,
    })
}

/// The criterion of these texts. Its listed numbers are checked in their order, and then the whole.
#[tactic(auto, unfolding(crate::specs::Item::number_criterion_from))]
pub(crate) fn make_number_criterion(
    alloc: Global,
    texts: &Option<NumberTexts>,
) -> Result<Option<NumberCriterion>, RecordFault>
    ensures { ReadsAs IsMemory result (number_criterion_from texts.now) }
{
    let Some(texts) = texts else {
        return Ok(None);
    };
    let numbers = make_isdn_addresses(alloc, &texts.numbers)?;
    let criterion = NumberCriterion::new(alloc, texts.match_type, &numbers, &texts.lengths)?;
    Ok(Some(criterion))
}
