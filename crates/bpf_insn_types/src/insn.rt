//! Every instruction form of the profile, as nested enums. The names are those of RFC 9669.

ghost use Rattle.std.specs.Prelude.{◌≡◌};
ghost use Rattle.bpf_insn_types.specs.Slots.{slots_of};

use crate::reg::Reg;

/// The width of an operation: the lower halves of registers, or whole registers.
#[derive(Clone, Copy, PartialEq)]
pub enum Width {
    W32,
    W64,
}

/// The size of a memory access: 1, 2, 4 or 8 bytes (RFC 9669, section 5).
#[derive(Clone, Copy, PartialEq)]
pub enum Size {
    B,
    H,
    W,
    Dw,
}

/// How many low bits of a register a byte order instruction takes (RFC 9669, section 4.2).
#[derive(Clone, Copy, PartialEq)]
pub enum EndianBits {
    B16,
    B32,
    B64,
}

/// How many low bits of a register a sign-extending move takes (RFC 9669, section 4.1).
#[derive(Clone, Copy, PartialEq)]
pub enum MovsxBits {
    B8,
    B16,
    B32,
}

/// Arithmetic with two operands (RFC 9669, section 4.1).
#[derive(Clone, Copy, PartialEq)]
pub enum AluOp {
    Add,
    Sub,
    Mul,
    Div,
    Sdiv,
    Or,
    And,
    Lsh,
    Rsh,
    Mod,
    Smod,
    Xor,
    Mov,
    Arsh,
}

/// To little endian, to big endian, or an unconditional swap (RFC 9669, section 4.2).
#[derive(Clone, Copy, PartialEq)]
pub enum ByteOrder {
    Le,
    Be,
    Swap,
}

/// The test of a conditional jump (RFC 9669, section 4.3).
#[derive(Clone, Copy, PartialEq)]
pub enum Compare {
    Eq,
    Gt,
    Ge,
    Set,
    Ne,
    Sgt,
    Sge,
    Lt,
    Le,
    Slt,
    Sle,
}

/// The second operand: a sign-extended immediate (K), or a register (X).
#[derive(Clone, Copy)]
pub enum Operand {
    Imm(i32),
    Reg(Reg),
}

/// What a call names (RFC 9669, sections 4.3.1 and 4.3.2).
#[derive(Clone, Copy)]
pub enum Callee {
    /// A helper by its number.
    Helper,
    /// A function of the program by its distance.
    Local,
    /// A helper by its BTF number.
    Btf,
}

/// The simple atomic operations (RFC 9669, section 5.3).
#[derive(Clone, Copy, PartialEq)]
pub enum SimpleOp {
    Add,
    Or,
    And,
    Xor,
}

/// An atomic operation (RFC 9669, section 5.3).
#[derive(Clone, Copy, PartialEq)]
pub enum AtomicOp {
    /// Changes memory alone.
    Simple(SimpleOp),
    /// Changes memory, and puts the old value into the source register.
    Fetch(SimpleOp),
    /// Exchanges memory and the source register.
    Xchg,
    /// Stores the source register where memory equals R0, and puts the old value into R0.
    Cmpxchg,
}

/// What a two-slot load puts into its register (RFC 9669, section 5.4).
#[derive(Clone, Copy)]
pub enum ImmKind {
    /// The number whose lower half is imm and whose upper half is next_imm.
    Number,
    /// The map of the file descriptor imm.
    MapFd,
    /// The address of byte next_imm of the values of the map of the file descriptor imm.
    MapFdValue,
    /// The address of the variable imm.
    Variable,
    /// The address of the function that starts imm slots past the next slot.
    Code,
    /// The map number imm.
    Map,
    /// The address of byte next_imm of the values of the map number imm.
    MapValue,
}

/// An instruction. A jump's distance counts from the slot after its own.
#[derive(Clone, Copy)]
pub enum Insn {
    /// dst becomes dst op operand.
    Alu {
        width: Width,
        op: AluOp,
        dst: Reg,
        operand: Operand,
    },
    /// dst becomes -dst.
    Neg {
        width: Width,
        dst: Reg,
    },
    /// dst becomes the low bits of src, sign-extended. There is no encoding for 32 bits at width 32.
    Movsx {
        width: Width,
        bits: MovsxBits,
        dst: Reg,
        src: Reg,
    },
    /// dst becomes its low bits in a byte order.
    Endian {
        order: ByteOrder,
        bits: EndianBits,
        dst: Reg,
    },
    /// Jumps by the 16-bit offset.
    Ja {
        offset: i16,
    },
    /// Jumps by the 32-bit immediate.
    Ja32 {
        imm: i32,
    },
    /// Jumps by the offset where the test holds of dst and the operand.
    Jump {
        width: Width,
        compare: Compare,
        dst: Reg,
        operand: Operand,
        offset: i16,
    },
    /// Calls what the callee kind and imm name.
    Call {
        callee: Callee,
        imm: i32,
    },
    /// Ends the function with R0.
    Exit,
    /// dst becomes the memory at src + offset, zero-extended.
    Load {
        size: Size,
        dst: Reg,
        src: Reg,
        offset: i16,
    },
    /// dst becomes the memory at src + offset, sign-extended. There is no encoding for Dw.
    LoadSx {
        size: Size,
        dst: Reg,
        src: Reg,
        offset: i16,
    },
    /// The memory at dst + offset becomes the low part of imm, sign-extended.
    StoreImm {
        size: Size,
        dst: Reg,
        offset: i16,
        imm: i32,
    },
    /// The memory at dst + offset becomes the low part of src.
    Store {
        size: Size,
        dst: Reg,
        src: Reg,
        offset: i16,
    },
    /// Changes the memory at dst + offset with src at once.
    Atomic {
        width: Width,
        op: AtomicOp,
        dst: Reg,
        src: Reg,
        offset: i16,
    },
    /// A load of two slots.
    LoadImm {
        kind: ImmKind,
        dst: Reg,
        imm: i32,
        next_imm: i32,
    },
}

/// How many slots of 8 bytes the instruction takes, 1 or 2 (RFC 9669, section 3.2).
pub fn slots(insn: &Insn) -> u32
    ensures { result ≡ slots_of insn.now }
{
    match insn {
        Insn::LoadImm { .. } => 2,
        _ => 1,
    }
}
