//! What the words at the front of a line say.

use bpf_insn_types::{
    AluOp, AtomicOp, ByteOrder, Callee, Compare, EndianBits, ImmKind, MovsxBits, Size, Width,
};

/// What the words before the operands of a line say.
#[derive(Clone, Copy)]
pub enum Mnemonic {
    Alu(Width, AluOp),
    Neg(Width),
    Movsx(Width, MovsxBits),
    Endian(ByteOrder, EndianBits),
    Ja,
    Ja32,
    Jump(Width, Compare),
    Call(Callee),
    Exit,
    Load(Size),
    LoadSx(Size),
    StoreImm(Size),
    Store(Size),
    Atomic(Width, AtomicOp),
    LoadImm(ImmKind),
}
