ghost use Rattle.std.specs.Prelude.{◌≡◌};
ghost use Rattle.camel_script.specs.Script.{script_fault_code};

use thiserror::Error;

/// Why a script can't be read on. After any of them each later read fails with `Failed`.
#[derive(Clone, Copy, Debug, PartialEq, Eq, Error)]
pub enum ScriptFault {
    /// 102: out of memory.
    #[error("out of memory")]
    OutOfMemory,
    /// 202: a word, the detection point of a call, the name of an item, a match type, the letter of a basic service, a
    /// call type or what a delete names is none of the format.
    #[error("unknown word")]
    Word,
    /// 203: a record has too few or too many fields, or an item too few or too many parts.
    #[error("wrong number of fields or parts")]
    FieldCount,
    /// 204: a text is not pairs of hexadecimal digits.
    #[error("not pairs of hexadecimal digits")]
    Hexadecimal,
    /// 205: a text is not an IMSI, or not a decimal in its range.
    #[error("not an IMSI or a number in its range")]
    Number,
    /// 206: the reader underneath failed.
    #[error("the script could not be read")]
    Read,
    /// 207: there is one record more than may be read.
    #[error("too many records")]
    TooManyRecords,
    /// 209: an earlier read of this script failed.
    #[error("an earlier read had a fault")]
    Failed,
}

impl ScriptFault {
    /// The fault's number.
    pub fn code(&self) -> u16
        ensures { result ≡ script_fault_code self.now }
    {
        match self {
            ScriptFault::OutOfMemory => 102,
            ScriptFault::Word => 202,
            ScriptFault::FieldCount => 203,
            ScriptFault::Hexadecimal => 204,
            ScriptFault::Number => 205,
            ScriptFault::Read => 206,
            ScriptFault::TooManyRecords => 207,
            ScriptFault::Failed => 209,
        }
    }
}
