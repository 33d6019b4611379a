//! Which memory an instruction accesses.

ghost use Rattle.std.specs.Prelude.{◌≡◌, ◌≤◌, IfSome};
ghost use Rattle.bpf_verify_model.specs.Accesses.{memory_access_of, kind_reads, kind_writes};

use bpf_insn_types::Insn;
use bpf_verify_model::{AccessKind, MemoryAccess};
use bpf_verify_values::{atomic_bytes, bytes_of};

/// The access of memory that an instruction makes, if it makes one.
pub(crate) fn access_of(insn: Insn) -> Option<MemoryAccess>
    ensures access { result ≡ memory_access_of insn }
    ensures size { IfSome result (λ access. 1 ≤ access.size) }
{
    let (kind, base, offset, size) = match insn {
        Insn::Load {
            size,
            src,
            offset,
            ..
        } => (AccessKind::Reads, src, offset, bytes_of(size)),
        Insn::LoadSx {
            size,
            src,
            offset,
            ..
        } => (AccessKind::Reads, src, offset, bytes_of(size)),
        Insn::StoreImm {
            size,
            dst,
            offset,
            ..
        } => (AccessKind::Writes, dst, offset, bytes_of(size)),
        Insn::Store {
            size,
            dst,
            offset,
            ..
        } => (AccessKind::Writes, dst, offset, bytes_of(size)),
        Insn::Atomic {
            width,
            dst,
            offset,
            ..
        } => (AccessKind::Changes, dst, offset, atomic_bytes(width)),
        _ => return None,
    };
    Some(MemoryAccess {
        kind,
        base,
        offset,
        size,
    })
}

/// Whether an access reads.
pub(crate) fn reads(kind: AccessKind) -> bool
    ensures { result ≡ kind_reads kind }
{
    !matches!(kind, AccessKind::Writes)
}

/// Whether an access writes.
pub(crate) fn writes(kind: AccessKind) -> bool
    ensures { result ≡ kind_writes kind }
{
    !matches!(kind, AccessKind::Reads)
}
