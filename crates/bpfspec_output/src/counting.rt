//! Readers and writers of std that count their failures.

ghost use Rattle.std.specs.Prelude.{◌≡◌, ◌+◌, ◌-◌, ◌^◌, ◌<◌, length, Ok, IsErr, IfOk, OnOk, OnErr};
ghost use Rattle.bpfspec_output.specs.Streams.{inner_of, failures_of};

use crate::retrying::{read_again, write_again};
use crate::streams::{DeviceFault, Sink, Source};
use std::io;
use std::io::{Read, Write};

/// A reader or a writer with the number of its failed calls. A call fails where the reader or the
/// writer fails, or where the writer took nothing of a piece that isn't empty. One that a signal
/// interrupts is made again.
#[derive(Drop)]
pub struct Counted<T> {
    inner: T,
    failures: u64,
}

impl<T> Counted<T> {
    /// The reader or writer, of which no call failed yet.
    pub fn new(inner: T) -> Counted<T>
        ensures inner { inner_of result ≡ inner }
        ensures failures { failures_of result ≡ 0 }
    {
        Counted { inner, failures: 0 }
    }

    /// The reader or writer, as the calls left it.
    pub fn into_inner(self) -> T
        ensures { result ≡ inner_of self }
    {
        self.inner
    }
}

/// What a counted read gives where the reader gave this: it fails only where the reader did.
pub fn read_outcome(given: io::Result<usize>) -> Result<usize, DeviceFault>
    ensures kept { IfOk result (λ n. given ≡ Ok n) }
    ensures failed { OnErr result (IsErr given) }
{
    given.map_err(|_| DeviceFault)
}

/// What a counted write gives where the writer gave this for the piece: it fails only where the writer
/// did, or took nothing of a piece that isn't empty.
pub fn write_outcome(given: io::Result<usize>, piece: &[u8]) -> Result<usize, DeviceFault>
    ensures kept { IfOk result (λ n. given ≡ Ok n) }
    ensures progress { IfOk result (λ n. 0 < length piece.now → 0 < n) }
    ensures failed { OnErr result (IfOk given (λ n. (n ≡ 0) × (0 < length piece.now))) }
{
    match given {
        Ok(n) if n > 0 || piece.is_empty() => Ok(n),
        _ => Err(DeviceFault),
    }
}

/// The outcome as it is, and one more failure where it is one.
fn count_failure(
    outcome: Result<usize, DeviceFault>,
    failures: &mut u64,
) -> Result<usize, DeviceFault>
    requires { failures.old < 2 ^ 64 - 1 }
    ensures same { result ≡ outcome }
    ensures ok { OnOk outcome (failures.new ≡ failures.old) }
    ensures err { OnErr outcome (failures.new ≡ failures.old + 1) }
{
    if outcome.is_err() {
        *failures += 1;
    }
    outcome
}

impl<T: Read> Source for Counted<T> {
    ghost left = { λ c. T.remaining (inner_of c) };

    ghost failed = { failures_of };

    fn read(&mut self, buffer: &mut [u8]) -> Result<usize, DeviceFault> {
        let outcome = read_outcome(read_again(&mut self.inner, buffer));
        count_failure(outcome, &mut self.failures)
    }

    fn failures(&self) -> u64 {
        self.failures
    }
}

impl<T: Write> Sink for Counted<T> {
    ghost taken = { λ c. T.contents (inner_of c) };

    ghost failed = { failures_of };

    fn write(&mut self, piece: &[u8]) -> Result<usize, DeviceFault> {
        let outcome = write_outcome(write_again(&mut self.inner, piece), piece);
        count_failure(outcome, &mut self.failures)
    }

    fn failures(&self) -> u64 {
        self.failures
    }
}
