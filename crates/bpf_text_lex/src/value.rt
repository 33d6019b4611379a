//! The operands of a line.

use bpf_insn_types::Reg;

/// An operand.
#[derive(Clone, Copy)]
pub enum Value {
    /// A register.
    Reg(Reg),
    /// A number of 32 bits.
    Imm(i32),
    /// A number of 64 bits.
    Wide(u64),
    /// A distance of 16 bits.
    Distance(i16),
    /// A distance of 32 bits.
    FarDistance(i32),
    /// The memory at a register and an offset.
    Address(Reg, i16),
}

/// The operands of a line, in order.
#[derive(Clone, Copy)]
pub enum Operands {
    Zero,
    One(Value),
    Two(Value, Value),
    Three(Value, Value, Value),
}
