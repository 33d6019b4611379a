//! Writing all of an output.

ghost use Rattle.std.specs.{Prelude.{◌≡◌, ◌+◌, ◌-◌, ◌^◌, ◌<◌, OnOk, OnErr}, Io.KnownBytes.{Appends}};
ghost use Rattle.bpfspec_output.specs.Streams.{AppendsBeginning};

use crate::streams::{DeviceFault, Sink};

/// Writes all bytes. It fails where a write fails, and the bytes that were written until then are a
/// beginning of them. The sink's `failures` has to be below 2^64 - 1.
pub fn write_all<W: Sink>(sink: &mut W, bytes: &[u8]) -> Result<(), DeviceFault>
    requires { W.failed sink.old < 2 ^ 64 - 1 }
    ensures whole { OnOk result (Appends (W.taken sink.old) (W.taken sink.new) bytes.now) }
    ensures beginning { AppendsBeginning (W.taken sink.old) (W.taken sink.new) bytes.now }
    ensures ok { OnOk result (W.failed sink.new ≡ W.failed sink.old) }
    ensures err { OnErr result (W.failed sink.new ≡ W.failed sink.old + 1) }
{
    let mut at = 0;
    'pieces: while at < bytes.len() {
        match sink.write(&bytes[at..]) {
            Ok(n) => at += n,
            Err(fault) => return Err(fault),
        }
    }
    Ok(())
}
