//! The operations on ranges.

use bpf_insn_types::{AluOp, ByteOrder, EndianBits, MovsxBits};

/// An operation on two operands, a and b.
#[derive(Clone, Copy)]
pub enum Operation {
    /// An operator; a move takes b alone.
    Alu(AluOp),
    /// The negative of a.
    Neg,
    /// The low bits of b, sign-extended.
    Movsx(MovsxBits),
    /// The low bits of a in a byte order.
    Endian(ByteOrder, EndianBits),
}
