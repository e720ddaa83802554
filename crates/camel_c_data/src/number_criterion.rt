ghost use Rattle.std.specs.Prelude.{◌≡◌, ◌≤◌, Ok, length, take};
ghost use Rattle.camel_c_data.specs.Update.{ShowsNumber, match_type_in, number_criterion_in};
ghost use Rattle.camel_c_data.specs.Fields.{isdn_address_in, IsMemory};
ghost use Rattle.camel_reading.specs.Reading.{ReadsAs, each_of};

use crate::first_items::{first_items, room_with};
use crate::{CamelIsdnAddress, DataFault};
use camel_criteria::{MAX_LENGTHS, MAX_NUMBERS, MatchType, NumberCriterion};
use camel_reading::read_into;
use camel_tbcd::IsdnAddress;
use std::alloc::Global;
use std::mem::size_of;

/// A destination number criterion (DestinationNumberCriteria of TS 29.002): a match type, the first `number_count`
/// numbers, and the first `length_count` lengths, each 1 to 15 digits. A list of none is absent.
#[repr(C)]
#[derive(Clone, Copy, Debug)]
pub struct CamelNumberCriterion {
    /// Whether the criterion is met if the destination is listed; else it is met if it is not.
    pub is_enabling: u8,
    pub number_count: u8,
    pub length_count: u8,
    pub lengths: [u8; MAX_LENGTHS],
    pub numbers: [CamelIsdnAddress; MAX_NUMBERS],
}

const _: () = prove!(size_of::<CamelNumberCriterion>() == 106);

impl CamelNumberCriterion {
    /// The fields of a criterion.
    pub(crate) fn of(criterion: &NumberCriterion) -> CamelNumberCriterion
        ensures { ShowsNumber criterion.now result }
    {
        CamelNumberCriterion {
            is_enabling: u8::from(matches!(criterion.match_type(), MatchType::Enabling)),
            number_count: criterion.numbers().len() as u8,
            length_count: criterion.lengths().len() as u8,
            lengths: room_with(criterion.lengths()),
            numbers: numbers_with(criterion.numbers()),
        }
    }

    /// No criterion: no number and no length.
    pub(crate) fn none() -> CamelNumberCriterion {
        CamelNumberCriterion {
            is_enabling: 0,
            number_count: 0,
            length_count: 0,
            lengths: [0; MAX_LENGTHS],
            numbers: [CamelIsdnAddress::none(); MAX_NUMBERS],
        }
    }

    /// The criterion that the fields are.
    ///
    /// Fails with `Malformed` (502) for more than 10 numbers, for a number that is no address and for more than 3
    /// lengths, then as [`NumberCriterion::new`], and with `OutOfMemory` (102) if memory is refused. Nothing was made
    /// then.
    #[tactic(auto, unfolding(crate::specs::Update::number_criterion_in))]
    pub fn read(&self, alloc: Global) -> Result<NumberCriterion, DataFault>
        ensures { ReadsAs IsMemory result (number_criterion_in self.now) }
    {
        let listed = first_items(&self.numbers, self.number_count)?;
        let mut numbers = [no_number(); MAX_NUMBERS];
        read_into(listed, |number| number.read(), &mut numbers)?;
        let lengths = first_items(&self.lengths, self.length_count)?;
        let match_type = self.match_type();
        Ok(NumberCriterion::new(alloc, match_type, &numbers[..listed.len()], lengths)?)
    }

    fn match_type(&self) -> MatchType
        ensures { result ≡ match_type_in self.now }
    {
        if self.is_enabling != 0 {
            MatchType::Enabling
        } else {
            MatchType::Inhibiting
        }
    }
}

/// A room with the fields of numbers, and those of none behind them.
fn numbers_with(numbers: &[IsdnAddress]) -> [CamelIsdnAddress; MAX_NUMBERS]
    requires { length numbers.now ≤ MAX_NUMBERS }
    ensures { each_of isdn_address_in (take (length numbers.now) result) ≡ Ok numbers.now }
{
    let mut room = [CamelIsdnAddress::none(); MAX_NUMBERS];
    for at in 0..numbers.len() {
        room[at] = CamelIsdnAddress::of(&numbers[at]);
    }
    room
}

// What stands in a place for a number until one is read into it.
fn no_number() -> IsdnAddress {
    IsdnAddress::from_bytes(&[0]).unwrap()
}
