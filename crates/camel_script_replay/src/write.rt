ghost use Rattle.std.specs.Prelude.{OnErr, OnOk};
ghost use Rattle.std.specs.Io.KnownBytes.{Appends};
ghost use Rattle.camel_script_replay.specs.Output.{AppendsProperPart};

use std::io::Write;

/// A write failed, or took no octet.
#[derive(Clone, Copy, Debug)]
pub struct WriteFault;

/// Writes all of the octets, in as many writes as the writer takes.
///
/// After an error a part of them, from the first one on, was written, but not all. Unlike `Write::write_all` of std it
/// takes each failed write as final, also one that was interrupted, and its contract says what was written by then.
pub fn write_all<W: Write>(writer: &mut W, octets: &[u8]) -> Result<(), WriteFault>
    ensures whole { OnOk result (Appends (W.contents writer.old) (W.contents writer.new) octets.now) }
    ensures part { OnErr result (AppendsProperPart (W.contents writer.old) (W.contents writer.new) octets.now) }
{
    let mut written = 0;
    'writes: while written < octets.len() {
        match writer.write(&octets[written..]) {
            Ok(0) => return Err(WriteFault),
            Ok(taken) => written += taken,
            Err(_) => return Err(WriteFault),
        }
    }
    Ok(())
}
