ghost use Rattle.std.specs.Prelude.{◌≡◌, ◌≤◌};
ghost use Rattle.camel_c_data.specs.Fields.{basic_service_in};

use camel_criteria::BasicService;
use std::mem::size_of;

/// A basic service: the first octet of its code, Ext-BearerServiceCode of TS 29.002 if it is a bearer service, and else
/// Ext-TeleserviceCode.
#[repr(C)]
#[derive(Clone, Copy, Debug, PartialEq, Eq)]
pub struct CamelBasicService {
    /// Not 0 for a bearer service.
    pub is_bearer: u8,
    pub code: u8,
}

const _: () = prove!(size_of::<CamelBasicService>() == 2);

impl CamelBasicService {
    /// The fields of a basic service.
    pub(crate) fn of(service: BasicService) -> CamelBasicService
        ensures same { basic_service_in result ≡ service }
        ensures flag { result.is_bearer ≤ 1 }
    {
        match service {
            BasicService::Bearer(code) => CamelBasicService { is_bearer: 1, code },
            BasicService::Tele(code) => CamelBasicService { is_bearer: 0, code },
        }
    }

    /// The basic service that the fields are. Every octet is a code.
    pub fn read(&self) -> BasicService
        ensures { result ≡ basic_service_in self.now }
    {
        if self.is_bearer != 0 {
            BasicService::Bearer(self.code)
        } else {
            BasicService::Tele(self.code)
        }
    }
}
