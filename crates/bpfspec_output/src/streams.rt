//! What the program reads its input from and writes its output to. Both count their failed calls, so
//! that an answer can tell whether one failed.

ghost use Rattle.std.specs.Prelude.{◌≡◌, ℕ, ◌+◌, ◌-◌, ◌^◌, ◌<◌, List, length, IfOk, OnOk, OnErr, Option};
ghost use Rattle.std.specs.Io.{ReadsAtMost, WritesAtMost, KnownBytes.{ReadConsumes, WriteAppends}};

use thiserror::Error;

/// A read or a write failed.
#[derive(Clone, Copy, Debug, PartialEq, Error)]
#[error("a read or a write failed")]
pub struct DeviceFault;

/// What bytes are read from.
pub trait Source {
    // The bytes that reads will give from here on, where they are known.
    ghost left: { Self → Option (List ℕ) };

    // How many reads failed.
    ghost failed: { Self → ℕ };

    /// Reads into the front of the buffer, and gives how many bytes: at most the buffer's length, and
    /// 0 for a buffer that isn't empty only at the end. A call that fails reads nothing and is counted
    /// in `failures`, which has to be below 2^64 - 1.
    fn read(&mut self, buffer: &mut [u8]) -> Result<usize, DeviceFault>
        requires { failed self.old < 2 ^ 64 - 1 }
        ensures bound { ReadsAtMost result buffer.new }
        ensures bytes { ReadConsumes (left self.old) (left self.new) result buffer.new }
        ensures ok { OnOk result (failed self.new ≡ failed self.old) }
        ensures err { OnErr result (failed self.new ≡ failed self.old + 1) };

    /// How many reads failed so far.
    fn failures(&self) -> u64
        ensures { result ≡ failed self.now };
}

/// What bytes are written to.
pub trait Sink {
    // The bytes that were taken so far, where they are known.
    ghost taken: { Self → Option (List ℕ) };

    // How many writes failed.
    ghost failed: { Self → ℕ };

    /// Takes bytes from the front of the piece, and gives how many: at most the piece's length, and at
    /// least one of a piece that isn't empty. A call that fails takes nothing and is counted in
    /// `failures`, which has to be below 2^64 - 1.
    fn write(&mut self, piece: &[u8]) -> Result<usize, DeviceFault>
        requires { failed self.old < 2 ^ 64 - 1 }
        ensures bound { WritesAtMost result piece.now }
        ensures progress { IfOk result (λ n. 0 < length piece.now → 0 < n) }
        ensures bytes { WriteAppends (taken self.old) (taken self.new) result piece.now }
        ensures ok { OnOk result (failed self.new ≡ failed self.old) }
        ensures err { OnErr result (failed self.new ≡ failed self.old + 1) };

    /// How many writes failed so far.
    fn failures(&self) -> u64
        ensures { result ≡ failed self.now };
}
