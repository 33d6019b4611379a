//! The words that mnemonics begin with.

use bpf_insn_types::{AluOp, ByteOrder, Callee, Compare, ImmKind, Width};

/// A mnemonic's word without the bits at its end.
#[derive(Clone, Copy)]
pub enum Stem {
    Ja,
    Ja32,
    Exit,
    Call(Callee),
    LoadImm(ImmKind),
    Alu(AluOp),
    Neg,
    Movsx(Width),
    Endian(ByteOrder),
    Jump(Compare),
    Load,
    LoadSx,
    StoreImm,
    Store,
}
