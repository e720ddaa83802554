ghost use Rattle.std.specs.Prelude.{◌≡◌};
ghost use Rattle.camel_c_data.specs.Update.{ShowsRow, row_in};

use crate::{CamelIsdnAddress, DataFault};
use camel_criteria::Handling;
use camel_rows::TdpRow;
use std::mem::size_of;

/// A TDP row of a CSI (O-BcsmCamelTDPData and T-BcsmCamelTDPData of TS 29.002).
#[repr(C)]
#[derive(Clone, Copy, Debug)]
pub struct CamelRow {
    /// The trigger detection point.
    pub dp: u8,
    /// The service key, 0 to 2147483647.
    pub key: u32,
    /// The gsmSCF address.
    pub scf: CamelIsdnAddress,
    /// The default call handling as it was received: 0 is continue and 1 release; TS 29.002 has values 2 to 31 treated
    /// as continue, and values above 31 as release.
    pub handling: u32,
}

const _: () = prove!(size_of::<CamelRow>() == 24);

impl CamelRow {
    /// The fields of a row. They read as that row; the default call handling is 0 or 1.
    #[tactic(auto, unfolding(crate::specs::Update::row_in))]
    pub fn of(row: &TdpRow) -> CamelRow
        ensures { ShowsRow row.now result }
    {
        CamelRow {
            dp: row.dp(),
            key: row.key(),
            scf: CamelIsdnAddress::of(&row.scf_address()),
            handling: match row.handling() {
                Handling::Continue => 0,
                Handling::Release => 1,
            },
        }
    }

    /// The row that the fields are.
    ///
    /// Fails with `Malformed` (502) if the gsmSCF address is none, and then with `UnexpectedDataValue` (36) for a
    /// service key over 2147483647.
    #[tactic(auto, unfolding(crate::specs::Update::row_in))]
    pub fn read(&self) -> Result<TdpRow, DataFault>
        ensures { result ≡ row_in self.now }
    {
        let scf = self.scf.read()?;
        let handling = Handling::of_received(self.handling);
        Ok(TdpRow::new(self.dp, self.key, scf, handling)?)
    }
}
