//! What words say.

ghost use Rattle.std.specs.{Prelude.{◌≡◌, ◌-◌, length, take, drop}, Str.{bytes_eq}};
ghost use Rattle.bpf_text_operands.specs.Stems.{stems, first_stem, whole, sized, front, ending, sized_at, mnemonic_at};
ghost use Rattle.bpf_text_operands.specs.Stems.{atomic_width, atomics, first_atomic};

use crate::stem::Stem;
use bpf_insn_types::{
    AluOp, AtomicOp, ByteOrder, Callee, Compare, EndianBits, ImmKind, MovsxBits, SimpleOp, Size,
    Width,
};
use bpf_text_lex::{Mnemonic, atomic_word};

/// All stems, each with its word.
#[rattlefmt::skip]
const STEMS: [(&[u8], Stem); 48] = [
    (b"ja", Stem::Ja), (b"ja32", Stem::Ja32), (b"exit", Stem::Exit), (b"call", Stem::Call(Callee::Helper)),
    (b"call_local", Stem::Call(Callee::Local)), (b"call_btf", Stem::Call(Callee::Btf)),
    (b"lddw", Stem::LoadImm(ImmKind::Number)), (b"ldmapfd", Stem::LoadImm(ImmKind::MapFd)),
    (b"ldmapfdval", Stem::LoadImm(ImmKind::MapFdValue)), (b"ldvar", Stem::LoadImm(ImmKind::Variable)),
    (b"ldcode", Stem::LoadImm(ImmKind::Code)), (b"ldmap", Stem::LoadImm(ImmKind::Map)),
    (b"ldmapval", Stem::LoadImm(ImmKind::MapValue)), (b"add", Stem::Alu(AluOp::Add)),
    (b"sub", Stem::Alu(AluOp::Sub)), (b"mul", Stem::Alu(AluOp::Mul)), (b"div", Stem::Alu(AluOp::Div)),
    (b"sdiv", Stem::Alu(AluOp::Sdiv)), (b"or", Stem::Alu(AluOp::Or)), (b"and", Stem::Alu(AluOp::And)),
    (b"lsh", Stem::Alu(AluOp::Lsh)), (b"rsh", Stem::Alu(AluOp::Rsh)), (b"mod", Stem::Alu(AluOp::Mod)),
    (b"smod", Stem::Alu(AluOp::Smod)), (b"xor", Stem::Alu(AluOp::Xor)), (b"mov", Stem::Alu(AluOp::Mov)),
    (b"arsh", Stem::Alu(AluOp::Arsh)), (b"neg", Stem::Neg), (b"mov32s", Stem::Movsx(Width::W32)),
    (b"mov64s", Stem::Movsx(Width::W64)), (b"le", Stem::Endian(ByteOrder::Le)),
    (b"be", Stem::Endian(ByteOrder::Be)), (b"swap", Stem::Endian(ByteOrder::Swap)),
    (b"jeq", Stem::Jump(Compare::Eq)), (b"jgt", Stem::Jump(Compare::Gt)), (b"jge", Stem::Jump(Compare::Ge)),
    (b"jset", Stem::Jump(Compare::Set)), (b"jne", Stem::Jump(Compare::Ne)), (b"jsgt", Stem::Jump(Compare::Sgt)),
    (b"jsge", Stem::Jump(Compare::Sge)), (b"jlt", Stem::Jump(Compare::Lt)), (b"jle", Stem::Jump(Compare::Le)),
    (b"jslt", Stem::Jump(Compare::Slt)), (b"jsle", Stem::Jump(Compare::Sle)), (b"ldx", Stem::Load),
    (b"ldxs", Stem::LoadSx), (b"st", Stem::StoreImm), (b"stx", Stem::Store),
];

/// All atomic operations.
const ATOMICS: [AtomicOp; 10] = [
    AtomicOp::Simple(SimpleOp::Add),
    AtomicOp::Simple(SimpleOp::Or),
    AtomicOp::Simple(SimpleOp::And),
    AtomicOp::Simple(SimpleOp::Xor),
    AtomicOp::Fetch(SimpleOp::Add),
    AtomicOp::Fetch(SimpleOp::Or),
    AtomicOp::Fetch(SimpleOp::And),
    AtomicOp::Fetch(SimpleOp::Xor),
    AtomicOp::Xchg,
    AtomicOp::Cmpxchg,
];

/// Whether two words are the same: most aren't as long, which is compared first.
fn is_same(word: &[u8], other: &[u8]) -> bool
    ensures { result ≡ bytes_eq word.now other.now }
{
    word.len() == other.len() && word == other
}

/// The stem that a word is.
fn stem_at(word: &[u8]) -> Option<Stem>
    ensures { result ≡ first_stem word.now stems }
{
    for entry in &STEMS {
        if is_same(word, entry.0) {
            return Some(entry.1);
        }
    }
    None
}

/// The atomic operation that a word is.
pub(crate) fn atomic_at(word: &[u8]) -> Option<AtomicOp>
    ensures { result ≡ first_atomic word.now atomics }
{
    for op in &ATOMICS {
        if word == atomic_word(*op).as_bytes() {
            return Some(*op);
        }
    }
    None
}

/// The mnemonic that a stem alone is.
fn whole(stem: Option<Stem>) -> Option<Mnemonic>
    ensures { result ≡ whole stem }
{
    match stem? {
        Stem::Ja => Some(Mnemonic::Ja),
        Stem::Ja32 => Some(Mnemonic::Ja32),
        Stem::Exit => Some(Mnemonic::Exit),
        Stem::Call(callee) => Some(Mnemonic::Call(callee)),
        Stem::LoadImm(kind) => Some(Mnemonic::LoadImm(kind)),
        _ => None,
    }
}

/// The mnemonic that a stem and bits after it are.
fn sized(stem: Option<Stem>, size: Size) -> Option<Mnemonic>
    ensures { result ≡ sized stem size }
{
    match (stem?, size) {
        (Stem::Alu(op), Size::W) => Some(Mnemonic::Alu(Width::W32, op)),
        (Stem::Alu(op), Size::Dw) => Some(Mnemonic::Alu(Width::W64, op)),
        (Stem::Neg, Size::W) => Some(Mnemonic::Neg(Width::W32)),
        (Stem::Neg, Size::Dw) => Some(Mnemonic::Neg(Width::W64)),
        (Stem::Movsx(width), Size::B) => Some(Mnemonic::Movsx(width, MovsxBits::B8)),
        (Stem::Movsx(width), Size::H) => Some(Mnemonic::Movsx(width, MovsxBits::B16)),
        (Stem::Movsx(Width::W64), Size::W) => Some(Mnemonic::Movsx(Width::W64, MovsxBits::B32)),
        (Stem::Endian(order), Size::H) => Some(Mnemonic::Endian(order, EndianBits::B16)),
        (Stem::Endian(order), Size::W) => Some(Mnemonic::Endian(order, EndianBits::B32)),
        (Stem::Endian(order), Size::Dw) => Some(Mnemonic::Endian(order, EndianBits::B64)),
        (Stem::Jump(compare), Size::W) => Some(Mnemonic::Jump(Width::W32, compare)),
        (Stem::Jump(compare), Size::Dw) => Some(Mnemonic::Jump(Width::W64, compare)),
        (Stem::Load, _) => Some(Mnemonic::Load(size)),
        (Stem::LoadSx, Size::B | Size::H | Size::W) => Some(Mnemonic::LoadSx(size)),
        (Stem::StoreImm, _) => Some(Mnemonic::StoreImm(size)),
        (Stem::Store, _) => Some(Mnemonic::Store(size)),
        _ => None,
    }
}

/// A word without its last bytes, and those.
fn split_ending(word: &[u8], count: usize) -> (&[u8], &[u8])
    ensures front { result.0.now ≡ front count word.now }
    ensures ending { result.1.now ≡ ending count word.now }
{
    word.split_at(word.len().saturating_sub(count))
}

/// The mnemonic that a word with bits at its end is.
fn sized_at(word: &[u8]) -> Option<Mnemonic>
    ensures { result ≡ sized_at word.now }
{
    let (front, bits) = split_ending(word, 2);
    if bits == b"64".as_slice() {
        return sized(stem_at(front), Size::Dw);
    }
    if bits == b"32".as_slice() {
        return sized(stem_at(front), Size::W);
    }
    if bits == b"16".as_slice() {
        return sized(stem_at(front), Size::H);
    }
    let (front, bits) = split_ending(word, 1);
    if bits == b"8".as_slice() {
        return sized(stem_at(front), Size::B);
    }
    None
}

/// The mnemonic that a word is.
pub(crate) fn mnemonic_at(word: &[u8]) -> Option<Mnemonic>
    ensures { result ≡ mnemonic_at word.now }
{
    match whole(stem_at(word)) {
        Some(mnemonic) => Some(mnemonic),
        None => sized_at(word),
    }
}

/// The width of an atomic's first word.
pub(crate) fn atomic_width(word: &[u8]) -> Option<Width>
    ensures { result ≡ atomic_width word.now }
{
    if word == b"atomic64".as_slice() {
        return Some(Width::W64);
    }
    if word == b"atomic32".as_slice() {
        return Some(Width::W32);
    }
    None
}
