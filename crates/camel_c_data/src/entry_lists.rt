//! The lists that entries of criteria of both CSIs have.

ghost use Rattle.std.specs.Prelude.{◌≡◌, ◌≤◌, All, Ok, IfErr, IfOk, length, map, take};
ghost use Rattle.camel_c_data.specs.Fields.{basic_service_in, IsMemory};
ghost use Rattle.camel_c_data.specs.Update.{AreFlags, basic_services_in, causes_in};
ghost use Rattle.camel_reading.specs.Reading.{ReadsList};

use crate::first_items::{first_items, room_with};
use crate::{CamelBasicService, DataFault};
use camel_criteria::{BasicService, MAX_BASIC_SERVICES, MAX_CAUSES};
use camel_reading::read_each;
use std::alloc::Global;
use std::mem::size_of;

/// A basic service criterion: the first `count` basic services, up to 5. One of none is absent.
#[repr(C)]
#[derive(Clone, Copy, Debug)]
pub struct CamelBasicServices {
    pub count: u8,
    pub services: [CamelBasicService; MAX_BASIC_SERVICES],
}

const _: () = prove!(size_of::<CamelBasicServices>() == 11);

impl CamelBasicServices {
    /// The fields of up to 5 basic services.
    #[tactic(auto, unfolding(crate::specs::Update::basic_services_in))]
    pub(crate) fn of(services: &[BasicService]) -> CamelBasicServices
        requires { length services.now ≤ MAX_BASIC_SERVICES }
        ensures same { basic_services_in result ≡ Ok services.now }
        ensures flags { AreFlags result }
    {
        CamelBasicServices {
            count: services.len() as u8,
            services: services_with(services),
        }
    }

    /// The basic services that the fields are.
    ///
    /// Fails with `Malformed` (502) for more than 5, and with `OutOfMemory` (102) if memory is refused.
    #[tactic(auto, unfolding(crate::specs::Update::basic_services_in))]
    pub fn read(&self, alloc: Global) -> Result<Vec<BasicService>, DataFault>
        ensures { ReadsList IsMemory result (basic_services_in self.now) }
    {
        read_services(alloc, first_items(&self.services, self.count)?)
    }
}

/// A room with the fields of basic services, and those of none behind them.
fn services_with(services: &[BasicService]) -> [CamelBasicService; MAX_BASIC_SERVICES]
    requires { length services.now ≤ MAX_BASIC_SERVICES }
    ensures same { map basic_service_in (take (length services.now) result) ≡ services.now }
    ensures flags { All (λ service. service.is_bearer ≤ 1) result }
{
    let mut room = [CamelBasicService::of(BasicService::Tele(0)); MAX_BASIC_SERVICES];
    for at in 0..services.len() {
        room[at] = CamelBasicService::of(services[at]);
    }
    room
}

fn read_services(
    alloc: Global,
    services: &[CamelBasicService],
) -> Result<Vec<BasicService>, DataFault>
    ensures { ReadsList IsMemory result (Ok (map basic_service_in services.now)) }
{
    read_each(alloc, services, |service| Ok(service.read()))
}

/// A cause criterion: the first `count` causes, up to 5. One of none is absent.
#[repr(C)]
#[derive(Clone, Copy, Debug)]
pub struct CamelCauses {
    pub count: u8,
    pub causes: [u8; MAX_CAUSES],
}

const _: () = prove!(size_of::<CamelCauses>() == 6);

impl CamelCauses {
    /// The fields of up to 5 causes.
    #[tactic(auto, unfolding(crate::specs::Update::causes_in))]
    pub(crate) fn of(causes: &[u8]) -> CamelCauses
        requires { length causes.now ≤ MAX_CAUSES }
        ensures { causes_in result ≡ Ok causes.now }
    {
        CamelCauses {
            count: causes.len() as u8,
            causes: room_with(causes),
        }
    }

    /// The causes that the fields are, each any octet.
    ///
    /// Fails with `Malformed` (502) for more than 5.
    #[tactic(auto, unfolding(crate::specs::Update::causes_in))]
    pub fn read(&self) -> Result<&[u8], DataFault>
        ensures listed { IfOk result (λ causes. causes_in self.now ≡ Ok causes.now) }
        ensures malformed { IfErr result (λ fault. causes_in self.now ≡ Err fault) }
    {
        first_items(&self.causes, self.count)
    }
}
