//! Instructions to bytes.

ghost use Rattle.std.specs.Prelude.{◌≡◌, ◌≤◌, ◌∷◌, [], MatchResult, IfOk, Some};
ghost use Rattle.bpf_insn.specs.{SlotBytes.{slot, SlotFits}, Spelling.{program_spelling}, CodecRefusal.{codec_refusal}};
ghost use Rattle.bpf_insn.specs.Spelling.{op_offset, movsx_offset, endian_imm, callee_src, atomic_imm};
ghost use Rattle.bpf_insn.specs.Spelling.{kind_src, has_next, two_slots, spelling, spelled_slots, SpelledFits, Appends};
ghost use Rattle.bpf_insn_types.specs.Outcome.{MatchesUnlessMemory};

use crate::codec_error::{CodecError, CodecFault};
use crate::form::Form;
use crate::slot::Slot;
use bpf_insn_types::{
    AluOp, AtomicOp, Callee, Compare, EndianBits, ImmKind, Insn, MovsxBits, Operand, SimpleOp,
    Size, Width,
};
use std::alloc::Global;

/// The slots of one instruction.
#[derive(Clone, Copy)]
pub struct Spelled {
    pub first: Slot,
    pub second: Option<Slot>,
}

/// The offset of an operation: 1 for signed division and modulo.
fn offset_of_op(op: AluOp) -> i16
    ensures { result ≡ op_offset op }
{
    match op {
        AluOp::Sdiv | AluOp::Smod => 1,
        _ => 0,
    }
}

/// The offset of a sign-extending move: its bits.
fn offset_of_movsx(bits: MovsxBits) -> i16
    ensures { result ≡ movsx_offset bits }
{
    match bits {
        MovsxBits::B8 => 8,
        MovsxBits::B16 => 16,
        MovsxBits::B32 => 32,
    }
}

/// The immediate of a byte order: its bits.
fn imm_of_endian(bits: EndianBits) -> i32
    ensures { result ≡ endian_imm bits }
{
    match bits {
        EndianBits::B16 => 16,
        EndianBits::B32 => 32,
        EndianBits::B64 => 64,
    }
}

fn src_of_callee(callee: Callee) -> u8
    ensures { result ≡ callee_src callee }
{
    match callee {
        Callee::Helper => 0,
        Callee::Local => 1,
        Callee::Btf => 2,
    }
}

fn imm_of_atomic(op: AtomicOp) -> i32
    ensures { result ≡ atomic_imm op }
{
    match op {
        AtomicOp::Simple(SimpleOp::Add) => 0x00,
        AtomicOp::Simple(SimpleOp::Or) => 0x40,
        AtomicOp::Simple(SimpleOp::And) => 0x50,
        AtomicOp::Simple(SimpleOp::Xor) => 0xa0,
        AtomicOp::Fetch(SimpleOp::Add) => 0x01,
        AtomicOp::Fetch(SimpleOp::Or) => 0x41,
        AtomicOp::Fetch(SimpleOp::And) => 0x51,
        AtomicOp::Fetch(SimpleOp::Xor) => 0xa1,
        AtomicOp::Xchg => 0xe1,
        AtomicOp::Cmpxchg => 0xf1,
    }
}

fn src_of_kind(kind: ImmKind) -> u8
    ensures { result ≡ kind_src kind }
{
    match kind {
        ImmKind::Number => 0,
        ImmKind::MapFd => 1,
        ImmKind::MapFdValue => 2,
        ImmKind::Variable => 3,
        ImmKind::Code => 4,
        ImmKind::Map => 5,
        ImmKind::MapValue => 6,
    }
}

/// Whether a two-slot load of this kind has a second number.
pub(crate) fn has_next_imm(kind: ImmKind) -> bool
    ensures { result ≡ has_next kind }
{
    matches!(
        kind,
        ImmKind::Number | ImmKind::MapFdValue | ImmKind::MapValue
    )
}

/// An instruction of one slot.
fn one_slot(form: Form, dst: u8, src: u8, offset: i16, imm: i32) -> Spelled
    requires dst { dst ≤ 10 }
    requires src { src ≤ 10 }
    ensures slots { spelled_slots result ≡ slot form dst src offset imm ∷ [] }
    ensures fits { SpelledFits result }
{
    Spelled {
        first: Slot::of_form(form, dst, src, offset, imm),
        second: None,
    }
}

/// A two-slot load, whose second number is 0 where its kind has none.
fn load_imm(kind: ImmKind, dst: u8, imm: i32, next_imm: i32) -> Result<Spelled, CodecFault>
    requires { dst ≤ 10 }
    ensures slots { MatchesUnlessMemory Some spelled_slots result (two_slots kind (has_next kind) dst imm next_imm) }
    ensures fits { IfOk result SpelledFits }
{
    if next_imm != 0 && !has_next_imm(kind) {
        return Err(CodecFault::FieldNotZero);
    }
    Ok(Spelled {
        first: Slot::of_form(Form::LoadImm, dst, src_of_kind(kind), 0, imm),
        second: Some(Slot {
            opcode: 0,
            dst: 0,
            src: 0,
            offset: 0,
            imm: next_imm,
        }),
    })
}

/// Arithmetic with two operands.
fn alu(width: Width, op: AluOp, dst: u8, operand: Operand) -> Spelled
    requires { dst ≤ 10 }
    ensures slots { Ok (spelled_slots result) ≡ spelling (Insn.Alu width op dst operand) }
    ensures fits { SpelledFits result }
{
    match operand {
        Operand::Imm(imm) => one_slot(Form::AluImm(width, op), dst, 0, offset_of_op(op), imm),
        Operand::Reg(src) => {
            one_slot(
                Form::AluReg(width, op),
                dst,
                src.number(),
                offset_of_op(op),
                0,
            )
        }
    }
}

/// A conditional jump.
fn jump(width: Width, compare: Compare, dst: u8, operand: Operand, offset: i16) -> Spelled
    requires { dst ≤ 10 }
    ensures slots { Ok (spelled_slots result) ≡ spelling (Insn.Jump width compare dst operand offset) }
    ensures fits { SpelledFits result }
{
    match operand {
        Operand::Imm(imm) => one_slot(Form::JumpImm(width, compare), dst, 0, offset, imm),
        Operand::Reg(src) => one_slot(Form::JumpReg(width, compare), dst, src.number(), offset, 0),
    }
}

/// The slots of an instruction, or why it has none.
fn spell(insn: &Insn) -> Result<Spelled, CodecFault>
    ensures slots { MatchesUnlessMemory Some spelled_slots result (spelling insn.now) }
    ensures fits { IfOk result SpelledFits }
{
    match *insn {
        Insn::Alu {
            width,
            op,
            dst,
            operand,
        } => Ok(alu(width, op, dst.number(), operand)),
        Insn::Neg { width, dst } => Ok(one_slot(Form::Neg(width), dst.number(), 0, 0, 0)),
        Insn::Movsx {
            width: Width::W32,
            bits: MovsxBits::B32,
            ..
        } => Err(CodecFault::Offset),
        Insn::Movsx {
            width,
            bits,
            dst,
            src,
        } => Ok(one_slot(
            Form::AluReg(width, AluOp::Mov),
            dst.number(),
            src.number(),
            offset_of_movsx(bits),
            0,
        )),
        Insn::Endian { order, bits, dst } => {
            Ok(one_slot(Form::Endian(order), dst.number(), 0, 0, imm_of_endian(bits)))
        }
        Insn::Ja { offset } => Ok(one_slot(Form::Ja, 0, 0, offset, 0)),
        Insn::Ja32 { imm } => Ok(one_slot(Form::Ja32, 0, 0, 0, imm)),
        Insn::Jump {
            width,
            compare,
            dst,
            operand,
            offset,
        } => { Ok(jump(width, compare, dst.number(), operand, offset)) }
        Insn::Call { callee, imm } => Ok(one_slot(Form::Call, 0, src_of_callee(callee), 0, imm)),
        Insn::Exit => Ok(one_slot(Form::Exit, 0, 0, 0, 0)),
        Insn::LoadImm {
            kind,
            dst,
            imm,
            next_imm,
        } => load_imm(kind, dst.number(), imm, next_imm),
        Insn::Load {
            size,
            dst,
            src,
            offset,
        } => { Ok(one_slot(Form::Load(size), dst.number(), src.number(), offset, 0)) }
        Insn::LoadSx { size: Size::Dw, .. } => Err(CodecFault::UnknownOpcode),
        Insn::LoadSx {
            size,
            dst,
            src,
            offset,
        } => { Ok(one_slot(Form::LoadSx(size), dst.number(), src.number(), offset, 0)) }
        Insn::StoreImm {
            size,
            dst,
            offset,
            imm,
        } => { Ok(one_slot(Form::StoreImm(size), dst.number(), 0, offset, imm)) }
        Insn::Store {
            size,
            dst,
            src,
            offset,
        } => { Ok(one_slot(Form::Store(size), dst.number(), src.number(), offset, 0)) }
        Insn::Atomic {
            width,
            op,
            dst,
            src,
            offset,
        } => {
            Ok(one_slot(
                Form::Atomic(width),
                dst.number(),
                src.number(),
                offset,
                imm_of_atomic(op),
            ))
        }
    }
}

/// Writes an instruction after the bytes of others.
fn put(bytes: &mut Vec<u8>, insn: &Insn) -> Result<(), CodecError>
    ensures { Appends bytes.old.items bytes.new.items insn.now result }
{
    let slot = bytes.len() / 8;
    let spelled = match spell(insn) {
        Err(fault) => return Err(CodecError::Refused { fault, slot }),
        Ok(spelled) => spelled,
    };
    spelled.first.push_bytes(bytes)?;
    if let Some(second) = spelled.second {
        second.push_bytes(bytes)?;
    }
    Ok(())
}

/// The bytes of a program, 8 a slot, one instruction after the other. It refuses the first
/// instruction that has no bytes, at its slot: a sign-extending load of 8 bytes (`UnknownOpcode`), a second
/// number where the kind of a two-slot load has none (`FieldNotZero`), a sign-extending move of 32 bits at
/// width 32 (`Offset`). Memory may run out in place of either answer.
pub fn encode(alloc: Global, insns: &[Insn]) -> Result<Vec<u8>, CodecError>
    ensures { MatchesUnlessMemory codec_refusal (λ v. v.items) result (program_spelling insns.now) }
{
    let mut bytes = Vec::new(alloc);
    for insn in insns {
        put(&mut bytes, insn)?;
    }
    Ok(bytes)
}
