//! Writing bytes out.
ghost use Rattle.std.specs.Prelude.{◌≡◌, true, IfErr, OnOk, OnErr};
ghost use Rattle.std.specs.Io.KnownBytes.{Appends};
ghost use Rattle.fkv_streams.specs.Counting.{CountsOnly};
ghost use Rattle.fkv_streams.specs.Streams.{AppendsPrefix};

use crate::sinks::Sink;
use fkv_functions::Refused;

/// Writes these bytes, in order and no others, and may leave them in the writer. `Unwritable` where the writer failed or takes no
/// more: then the bytes that it took are the first of them.
pub fn write_all<W: Sink>(writer: &mut W, bytes: &[u8]) -> Result<(), Refused>
    ensures ok { OnOk result (Appends (W.contents writer.old) (W.contents writer.new) bytes.now) }
    ensures only { IfErr result (λ refused. refused ≡ Refused.Unwritable) }
    ensures refused { OnErr result (AppendsPrefix (W.contents writer.old) (W.contents writer.new) bytes.now) }
    ensures counted { CountsOnly Refused.Unwritable result (W.failures writer.old) (W.failures writer.new) }
{
    let mut done = 0;
    while done < bytes.len() {
        match writer.write(&bytes[done..]) {
            Ok(count) => done += count,
            Err(refused) => return Err(refused),
        }
    }
    Ok(())
}

/// Writes these bytes, in order and no others, and lets them out. `Unwritable` where the writer failed or takes no
/// more: then the bytes that it took are the first of them.
pub fn write_out<W: Sink>(writer: &mut W, bytes: &[u8]) -> Result<(), Refused>
    ensures ok { OnOk result (Appends (W.contents writer.old) (W.contents writer.new) bytes.now) }
    ensures only { IfErr result (λ refused. refused ≡ Refused.Unwritable) }
    ensures refused { OnErr result (AppendsPrefix (W.contents writer.old) (W.contents writer.new) bytes.now) }
    ensures out { OnOk result (W.is_out writer.new ≡ true) }
    ensures counted { CountsOnly Refused.Unwritable result (W.failures writer.old) (W.failures writer.new) }
{
    match write_all(writer, bytes) {
        Ok(()) => writer.flush(),
        Err(refused) => Err(refused),
    }
}
