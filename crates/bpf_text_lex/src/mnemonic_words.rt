//! The words of assembler text.

ghost use Rattle.std.specs.Prelude.{◌≡◌};
ghost use Rattle.bpf_text_lex.specs.MnemonicWords.{width_word, size_word, alu_word, order_word, endian_word};
ghost use Rattle.bpf_text_lex.specs.MnemonicWords.{movsx_word, compare_word, callee_word, atomic_word, kind_word};

use bpf_insn_types::{
    AluOp, AtomicOp, ByteOrder, Callee, Compare, EndianBits, ImmKind, MovsxBits, SimpleOp, Size,
    Width,
};

/// The bits of a width.
pub(crate) fn width_word(width: Width) -> &'static str
    ensures { result.now ≡ width_word width }
{
    match width {
        Width::W32 => "32",
        Width::W64 => "64",
    }
}

/// The bits of an access.
pub(crate) fn size_word(size: Size) -> &'static str
    ensures { result.now ≡ size_word size }
{
    match size {
        Size::B => "8",
        Size::H => "16",
        Size::W => "32",
        Size::Dw => "64",
    }
}

/// The word of an arithmetic operation, without its width.
pub fn alu_word(op: AluOp) -> &'static str
    ensures { result.now ≡ alu_word op }
{
    match op {
        AluOp::Add => "add",
        AluOp::Sub => "sub",
        AluOp::Mul => "mul",
        AluOp::Div => "div",
        AluOp::Sdiv => "sdiv",
        AluOp::Or => "or",
        AluOp::And => "and",
        AluOp::Lsh => "lsh",
        AluOp::Rsh => "rsh",
        AluOp::Mod => "mod",
        AluOp::Smod => "smod",
        AluOp::Xor => "xor",
        AluOp::Mov => "mov",
        AluOp::Arsh => "arsh",
    }
}

/// The word of a byte order, without its bits.
pub fn order_word(order: ByteOrder) -> &'static str
    ensures { result.now ≡ order_word order }
{
    match order {
        ByteOrder::Le => "le",
        ByteOrder::Be => "be",
        ByteOrder::Swap => "swap",
    }
}

/// The bits of a byte order.
pub(crate) fn endian_word(bits: EndianBits) -> &'static str
    ensures { result.now ≡ endian_word bits }
{
    match bits {
        EndianBits::B16 => "16",
        EndianBits::B32 => "32",
        EndianBits::B64 => "64",
    }
}

/// The bits of a sign-extending move.
pub(crate) fn movsx_word(bits: MovsxBits) -> &'static str
    ensures { result.now ≡ movsx_word bits }
{
    match bits {
        MovsxBits::B8 => "8",
        MovsxBits::B16 => "16",
        MovsxBits::B32 => "32",
    }
}

/// The word of a test, without its width.
pub fn compare_word(compare: Compare) -> &'static str
    ensures { result.now ≡ compare_word compare }
{
    match compare {
        Compare::Eq => "jeq",
        Compare::Gt => "jgt",
        Compare::Ge => "jge",
        Compare::Set => "jset",
        Compare::Ne => "jne",
        Compare::Sgt => "jsgt",
        Compare::Sge => "jsge",
        Compare::Lt => "jlt",
        Compare::Le => "jle",
        Compare::Slt => "jslt",
        Compare::Sle => "jsle",
    }
}

/// The word of a call.
pub fn callee_word(callee: Callee) -> &'static str
    ensures { result.now ≡ callee_word callee }
{
    match callee {
        Callee::Helper => "call",
        Callee::Local => "call_local",
        Callee::Btf => "call_btf",
    }
}

/// The second word of an atomic.
pub fn atomic_word(op: AtomicOp) -> &'static str
    ensures { result.now ≡ atomic_word op }
{
    match op {
        AtomicOp::Simple(SimpleOp::Add) => "add",
        AtomicOp::Simple(SimpleOp::Or) => "or",
        AtomicOp::Simple(SimpleOp::And) => "and",
        AtomicOp::Simple(SimpleOp::Xor) => "xor",
        AtomicOp::Fetch(SimpleOp::Add) => "add_fetch",
        AtomicOp::Fetch(SimpleOp::Or) => "or_fetch",
        AtomicOp::Fetch(SimpleOp::And) => "and_fetch",
        AtomicOp::Fetch(SimpleOp::Xor) => "xor_fetch",
        AtomicOp::Xchg => "xchg",
        AtomicOp::Cmpxchg => "cmpxchg",
    }
}

/// The word of a two-slot load.
pub fn kind_word(kind: ImmKind) -> &'static str
    ensures { result.now ≡ kind_word kind }
{
    match kind {
        ImmKind::Number => "lddw",
        ImmKind::MapFd => "ldmapfd",
        ImmKind::MapFdValue => "ldmapfdval",
        ImmKind::Variable => "ldvar",
        ImmKind::Code => "ldcode",
        ImmKind::Map => "ldmap",
        ImmKind::MapValue => "ldmapval",
    }
}
