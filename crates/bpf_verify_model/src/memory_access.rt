//! Accesses of memory.

use bpf_insn_types::Reg;

/// What an access does.
#[derive(Clone, Copy)]
pub enum AccessKind {
    Reads,
    Writes,
    /// Reads and writes at once.
    Changes,
}

/// An access of n bytes at a base register and an offset.
#[derive(Clone, Copy)]
pub struct MemoryAccess {
    pub kind: AccessKind,
    pub base: Reg,
    pub offset: i16,
    pub size: u32,
}
