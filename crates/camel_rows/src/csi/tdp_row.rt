ghost use Rattle.std.specs.Prelude.{◌≡◌, ◌<◌, ◌≤◌, ◌↔◌, IsErr};
ghost use Rattle.camel_tbcd.specs.Address.{octets};
ghost use Rattle.camel_tbcd.specs.AddressString.{IsAddress, max_isdn_address_length};
ghost use Rattle.camel_rows.specs.TdpRow.{no_row, max_service_key, tdp_row_of};

use camel_criteria::{AtDetectionPoint, Handling, Refusal};
use camel_tbcd::{Address, IsdnAddress};
use std::marker::Model;

/// The greatest service key: ServiceKey of TS 29.002.
pub const MAX_SERVICE_KEY: u32 = 2_147_483_647;

/// A TDP row of a CSI: a trigger detection point that is armed, with the service that is invoked there
/// (O-BcsmCamelTDPData and T-BcsmCamelTDPData of TS 29.002).
#[derive(Clone, Copy, Debug)]
pub struct TdpRow {
    // The widest field comes first, so that no room is lost between the fields or behind them.
    key: u32,
    scf: IsdnAddress,
    dp: u8,
    handling: Handling,
}

const _: () = prove!(size_of::<TdpRow>() == 16);

impl Model for TdpRow {
    ghost use Rattle.std.specs.Prelude.{◌≤◌};
    ghost use Rattle.camel_rows.specs.TdpRow.{TdpRowData, max_service_key};

    ghost Value = { TdpRowData };

    ghost view = { λ a. record { dp = a.dp; key = a.key; scf = a.scf; handling = a.handling } };

    ghost invariant = { λ a. a.key ≤ max_service_key };

    ghost inverse = { λ row. record { dp = row.dp; key = row.key; scf = row.scf; handling = row.handling } };
}

impl TdpRow {
    /// A row of a detection point, a service key, a gsmSCF address and a default call handling.
    ///
    /// Fails with `UnexpectedDataValue` (36) for a service key over 2147483647.
    pub fn new(dp: u8, key: u32, scf: IsdnAddress, handling: Handling) -> Result<TdpRow, Refusal>
        ensures answer { result ≡ tdp_row_of dp key scf handling }
        ensures refused { IsErr result ↔ (max_service_key < key) }
    {
        if key > MAX_SERVICE_KEY {
            return Err(Refusal::UnexpectedDataValue);
        }
        Ok(TdpRow {
            key,
            scf,
            dp,
            handling,
        })
    }

    /// What stands in a place for a row that holds none.
    pub(crate) fn filler() -> TdpRow
        ensures { result ≡ no_row }
    {
        TdpRow {
            key: 0,
            scf: IsdnAddress::from_bytes(&[0]).unwrap(),
            dp: 0,
            handling: Handling::Continue,
        }
    }

    /// The trigger detection point.
    pub fn dp(&self) -> u8
        ensures { result ≡ self.now.dp }
    {
        self.dp
    }

    /// The service key, 0 to 2147483647.
    pub fn key(&self) -> u32
        ensures key { result ≡ self.now.key }
        ensures range { result ≤ max_service_key }
    {
        self.key
    }

    /// The gsmSCF address, 1 to 9 octets.
    pub fn scf(&self) -> Address<'_>
        ensures same { octets result ≡ self.now.scf }
        ensures address { IsAddress max_isdn_address_length self.now.scf }
    {
        self.scf.lend()
    }

    /// The default call handling.
    pub fn handling(&self) -> Handling
        ensures { result ≡ self.now.handling }
    {
        self.handling
    }

    /// The gsmSCF address, to keep.
    pub fn scf_address(&self) -> IsdnAddress
        ensures { result ≡ self.now.scf }
    {
        self.scf
    }
}

impl AtDetectionPoint for TdpRow {
    ghost dp_of = { λ row. row.dp };

    fn detection_point(&self) -> u8 {
        self.dp()
    }
}
