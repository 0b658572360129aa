// Writing all of some bytes.
ghost use Rattle.std.specs.Prelude.{OnOk, OnErr};
ghost use Rattle.std.specs.Io.KnownBytes.{Appends};
ghost use Rattle.geo_io.specs.Causes.{HasCauseOf};
ghost use Rattle.geo_io.specs.Told.{AppendsFrontOf};

use crate::{IoFault, Sink};

/// Writes all bytes, or a front of them where the sink fails.
pub fn write_whole<K: Sink>(out: &mut K, bytes: &[u8]) -> Result<(), IoFault>
    ensures ok { OnOk result (Appends (K.written out.old) (K.written out.new) bytes.now) }
    ensures err { OnErr result (AppendsFrontOf bytes.now (K.written out.old) (K.written out.new)) }
    ensures cause { HasCauseOf IoFault.Failed (K.faults out.old) (K.faults out.new) result }
{
    let mut at = 0;
    while at < bytes.len() {
        at += out.write(&bytes[at..])?;
    }
    Ok(())
}
