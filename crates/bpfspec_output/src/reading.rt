//! Reading an input to its end.

ghost use Rattle.std.specs.Prelude.{◌≡◌, ◌+◌, ◌-◌, ◌^◌, ◌<◌, ◌≤◌, take, Ok, Err, IfOk, IfErr, IfSome, OnOk, OnErr};
ghost use Rattle.std.specs.{Prelude.{vec_len}, Io.KnownBytes.{Keeps, IsAtEnd, prepend_known}};
ghost use Rattle.bpfspec_output.specs.Streams.{ConsumesAtMost, ReadsToEnd};

use crate::streams::Source;
use std::alloc::Global;
use thiserror::Error;

/// Why an input wasn't read.
#[derive(Debug, Drop, Error)]
pub enum ReadAllError {
    /// A read failed.
    #[error("a read failed")]
    Device,
    /// There was no memory for the input.
    #[error("out of memory")]
    Memory,
}

/// How many bytes one read asks for at most.
const PIECE: usize = 4096;

/// Reads one piece onto the end of the bytes, which stay at most `limit`, and gives its length: 0 only
/// at the end.
fn read_piece<R: Source>(
    source: &mut R,
    bytes: &mut Vec<u8>,
    limit: usize,
) -> Result<usize, ReadAllError>
    requires room { vec_len bytes.old < limit }
    requires count { R.failed source.old < 2 ^ 64 - 1 }
    ensures length { IfOk result (λ n. vec_len bytes.new ≡ vec_len bytes.old + n) }
    ensures limit { OnOk result (vec_len bytes.new ≤ limit) }
    ensures bytes { OnOk result (Keeps (prepend_known bytes.old.items (R.left source.old))
        (prepend_known bytes.new.items (R.left source.new))) }
    ensures end { IfOk result (λ n. n ≡ 0 → IsAtEnd (R.left source.new)) }
    ensures consumed { ConsumesAtMost (R.left source.old) (R.left source.new)
        (limit - vec_len bytes.old) }
    ensures ok { OnOk result (R.failed source.new ≡ R.failed source.old) }
    ensures device { result ≡ Err ReadAllError.Device →
        R.failed source.new ≡ R.failed source.old + 1 }
    ensures memory { result ≡ Err ReadAllError.Memory →
        R.failed source.new ≡ R.failed source.old }
{
    let mut piece = [0; PIECE];
    let room = (limit - bytes.len()).min(PIECE);
    let n = source
        .read(&mut piece[..room])
        .map_err(|_| ReadAllError::Device)?;
    bytes
        .extend_from_slice(&piece[..n])
        .map_err(|_| ReadAllError::Memory)?;
    Ok(n)
}

/// Reads to the end of the input, at most `limit` bytes. The source's `failures` has to be below
/// 2^64 - 1. It fails with `Device` where a read failed, and with `Memory` where there is no memory for
/// the bytes; what was read until then is lost.
pub fn read_all<R: Source>(
    alloc: Global,
    source: &mut R,
    limit: usize,
) -> Result<Vec<u8>, ReadAllError>
    requires { R.failed source.old < 2 ^ 64 - 1 }
    ensures bytes { IfOk result (λ bytes.
        IfSome (R.left source.old) (λ xs. bytes.items ≡ take limit xs)) }
    ensures whole { IfOk result (λ bytes.
        ReadsToEnd (R.left source.old) (R.left source.new) limit bytes.items) }
    ensures consumed { ConsumesAtMost (R.left source.old) (R.left source.new) limit }
    ensures ok { OnOk result (R.failed source.new ≡ R.failed source.old) }
    ensures device { result ≡ Err ReadAllError.Device →
        R.failed source.new ≡ R.failed source.old + 1 }
    ensures memory { result ≡ Err ReadAllError.Memory →
        R.failed source.new ≡ R.failed source.old }
{
    let mut bytes = Vec::new(alloc);
    'pieces: while bytes.len() < limit {
        if read_piece(source, &mut bytes, limit)? == 0 {
            return Ok(bytes);
        }
    }
    Ok(bytes)
}
