ghost use Rattle.std.specs.Prelude.{◌≡◌, Ok, IfErr, IfOk};
ghost use Rattle.camel_tbcd.specs.Imsi.{IsNumberOfNone, imsi_number};
ghost use Rattle.camel_c_data.specs.Fields.{imsi_in};
ghost use Rattle.camel_c_data.specs.declared.data_fault.DataFault.TheVariants.{Malformed};

use crate::data_fault::DataFault;
use camel_tbcd::Imsi;
use std::mem::size_of;

/// An IMSI in 8 octets: how many digits it has in the highest octet, and their decimal value below. The IMSI
/// 262010000000001 is `15ULL << 56 | 262010000000001`. Equal IMSIs have the same number, and 0 is that of none.
#[repr(C)]
#[derive(Clone, Copy, Debug, PartialEq, Eq)]
pub struct CamelImsi {
    pub number: u64,
}

const _: () = prove!(size_of::<CamelImsi>() == 8);

impl CamelImsi {
    /// The number of an IMSI. It reads as that IMSI.
    pub fn of(imsi: &Imsi) -> CamelImsi
        ensures number { result.number ≡ imsi_number imsi.now }
        ensures same { imsi_in result ≡ Ok imsi.now }
    {
        CamelImsi {
            number: imsi.number(),
        }
    }

    /// The IMSI of which this is the number.
    ///
    /// Fails with `Malformed` (502) if it is the number of no IMSI.
    #[tactic(auto, unfolding(crate::specs::Fields::imsi_in))]
    pub fn read(&self) -> Result<Imsi, DataFault>
        ensures imsi { result ≡ imsi_in self.now }
        ensures number { IfOk result (λ imsi. imsi_number imsi ≡ self.now.number) }
        ensures malformed { IfErr result (λ fault. (fault ≡ Malformed) × IsNumberOfNone self.now.number) }
    {
        match Imsi::from_number(self.number) {
            Some(imsi) => Ok(imsi),
            None => Err(DataFault::Malformed),
        }
    }
}
