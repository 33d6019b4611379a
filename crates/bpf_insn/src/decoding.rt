//! Bytes to instructions.

ghost use Rattle.std.specs.Prelude.{◌≡◌, ◌≤◌, ◌<◌, ◌*◌, List, length, drop, ◌++◌, ◌∷◌, [], IfOk, IfErr, OnOk};
ghost use Rattle.std.specs.Prelude.{MatchResult};
ghost use Rattle.bpf_insn_types.specs.{Slots.{slots_of}, Outcome.{MatchesUnlessMemory}, Values.{AreInsns}};
ghost use Rattle.bpf_insn_types.specs.declared.insn.Insn.{Insn};
ghost use Rattle.bpf_insn.specs.Reading.{alu_op_at, alu_insn, mov_at, endian_at, call_at};
ghost use Rattle.bpf_insn.specs.Reading.{atomic_at, atomic_insn, imm_kind_at, is_second, load_imm_at, insn_of_form};
ghost use Rattle.bpf_insn.specs.Reading.{insn_of_slot, front_slot, first_insn, FailsFirst, reading};
ghost use Rattle.bpf_insn.specs.{CodecRefusal.{codec_refusal}, Spelling.{program_spelling}};

use crate::codec_error::{CodecError, CodecFault};
use crate::encoding::has_next_imm;
use crate::form::{Form, form_of, only_its_fields};
use crate::slot::Slot;
use bpf_insn_types::{
    AluOp, AtomicOp, ByteOrder, Callee, Compare, EndianBits, ImmKind, Insn, MovsxBits, Operand,
    Reg, SimpleOp, Width, slots,
};
use std::alloc::Global;

/// The operation at an offset, which says of a division or a modulo whether it is signed.
fn op_at(op: AluOp, offset: i16) -> Result<AluOp, CodecFault>
    ensures { result ≡ alu_op_at op offset }
{
    let (plain, signed) = match op {
        AluOp::Div | AluOp::Sdiv => (AluOp::Div, AluOp::Sdiv),
        AluOp::Mod | AluOp::Smod => (AluOp::Mod, AluOp::Smod),
        _ => return Ok(op),
    };
    match offset {
        0 => Ok(plain),
        1 => Ok(signed),
        _ => Err(CodecFault::Offset),
    }
}

/// Arithmetic with two operands.
fn alu(width: Width, op: AluOp, dst: Reg, operand: Operand, offset: i16) -> Result<Insn, CodecFault>
    ensures { result ≡ alu_insn width dst operand (alu_op_at op offset) }
{
    let op = op_at(op, offset)?;
    Ok(Insn::Alu {
        width,
        op,
        dst,
        operand,
    })
}

/// A move of a register, sign-extending where its offset says how many bits.
fn mov(width: Width, dst: Reg, src: Reg, offset: i16) -> Result<Insn, CodecFault>
    ensures { result ≡ mov_at width dst src offset }
{
    let bits = match (offset, width) {
        (0, _) => {
            return Ok(Insn::Alu {
                width,
                op: AluOp::Mov,
                dst,
                operand: Operand::Reg(src),
            });
        }
        (8, _) => MovsxBits::B8,
        (16, _) => MovsxBits::B16,
        (32, Width::W64) => MovsxBits::B32,
        _ => return Err(CodecFault::Offset),
    };
    Ok(Insn::Movsx {
        width,
        bits,
        dst,
        src,
    })
}

/// A byte order, whose immediate says how many bits.
fn endian(order: ByteOrder, dst: Reg, imm: i32) -> Result<Insn, CodecFault>
    ensures { result ≡ endian_at order dst imm }
{
    let bits = match imm {
        16 => EndianBits::B16,
        32 => EndianBits::B32,
        64 => EndianBits::B64,
        _ => return Err(CodecFault::Immediate),
    };
    Ok(Insn::Endian { order, bits, dst })
}

/// A call, whose source says what it names.
fn call(src: u8, imm: i32) -> Result<Insn, CodecFault>
    ensures { result ≡ call_at src imm }
{
    let callee = match src {
        0 => Callee::Helper,
        1 => Callee::Local,
        2 => Callee::Btf,
        _ => return Err(CodecFault::CallSource),
    };
    Ok(Insn::Call { callee, imm })
}

/// The atomic operation of an immediate.
fn atomic_op(imm: i32) -> Result<AtomicOp, CodecFault>
    ensures { result ≡ atomic_at imm }
{
    match imm {
        0x00 => Ok(AtomicOp::Simple(SimpleOp::Add)),
        0x40 => Ok(AtomicOp::Simple(SimpleOp::Or)),
        0x50 => Ok(AtomicOp::Simple(SimpleOp::And)),
        0xa0 => Ok(AtomicOp::Simple(SimpleOp::Xor)),
        0x01 => Ok(AtomicOp::Fetch(SimpleOp::Add)),
        0x41 => Ok(AtomicOp::Fetch(SimpleOp::Or)),
        0x51 => Ok(AtomicOp::Fetch(SimpleOp::And)),
        0xa1 => Ok(AtomicOp::Fetch(SimpleOp::Xor)),
        0xe1 => Ok(AtomicOp::Xchg),
        0xf1 => Ok(AtomicOp::Cmpxchg),
        _ => Err(CodecFault::Immediate),
    }
}

/// The kind of a two-slot load by its source.
fn kind_of(src: u8) -> Option<ImmKind>
    ensures { result ≡ imm_kind_at src }
{
    match src {
        0 => Some(ImmKind::Number),
        1 => Some(ImmKind::MapFd),
        2 => Some(ImmKind::MapFdValue),
        3 => Some(ImmKind::Variable),
        4 => Some(ImmKind::Code),
        5 => Some(ImmKind::Map),
        6 => Some(ImmKind::MapValue),
        _ => None,
    }
}

/// Whether all but the immediate of a slot is zero.
fn is_second_slot(slot: Slot) -> bool
    ensures { result ≡ is_second slot }
{
    slot.opcode == 0 && slot.dst == 0 && slot.src == 0 && slot.offset == 0
}

/// A two-slot load; next is the slot after it.
fn load_imm(src: u8, dst: Reg, imm: i32, next: Option<Slot>) -> Result<Insn, CodecFault>
    ensures { result ≡ load_imm_at (imm_kind_at src) dst imm next }
{
    let Some(kind) = kind_of(src) else {
        return Err(CodecFault::LoadKind);
    };
    let Some(second) = next else {
        return Err(CodecFault::SecondSlot);
    };
    if !has_next_imm(kind) && second.imm != 0 {
        return Err(CodecFault::FieldNotZero);
    }
    if !is_second_slot(second) {
        return Err(CodecFault::SecondSlot);
    }
    Ok(Insn::LoadImm {
        kind,
        dst,
        imm,
        next_imm: second.imm,
    })
}

/// A jump by a test.
fn jump(width: Width, compare: Compare, dst: Reg, operand: Operand, offset: i16) -> Insn
    ensures { result ≡ Insn.Jump width compare dst operand offset }
{
    Insn::Jump {
        width,
        compare,
        dst,
        operand,
        offset,
    }
}

/// The instruction of a form whose registers and unused fields are valid; next is the slot after it.
fn insn_of_form(
    form: Form,
    dst: Reg,
    src: Reg,
    slot: Slot,
    next: Option<Slot>,
) -> Result<Insn, CodecFault>
    ensures { result ≡ insn_of_form form dst src slot.offset slot.imm next }
{
    let Slot { offset, imm, .. } = slot;
    match form {
        Form::AluImm(width, op) => alu(width, op, dst, Operand::Imm(imm), offset),
        Form::AluReg(width, AluOp::Mov) => mov(width, dst, src, offset),
        Form::AluReg(width, op) => alu(width, op, dst, Operand::Reg(src), offset),
        Form::Neg(width) => Ok(Insn::Neg { width, dst }),
        Form::Endian(order) => endian(order, dst, imm),
        Form::Ja => Ok(Insn::Ja { offset }),
        Form::Ja32 => Ok(Insn::Ja32 { imm }),
        Form::JumpImm(width, compare) => Ok(jump(width, compare, dst, Operand::Imm(imm), offset)),
        Form::JumpReg(width, compare) => Ok(jump(width, compare, dst, Operand::Reg(src), offset)),
        Form::Call => call(src.number(), imm),
        Form::Exit => Ok(Insn::Exit),
        Form::Load(size) => Ok(Insn::Load {
            size,
            dst,
            src,
            offset,
        }),
        Form::LoadSx(size) => Ok(Insn::LoadSx {
            size,
            dst,
            src,
            offset,
        }),
        Form::StoreImm(size) => Ok(Insn::StoreImm {
            size,
            dst,
            offset,
            imm,
        }),
        Form::Store(size) => Ok(Insn::Store {
            size,
            dst,
            src,
            offset,
        }),
        Form::Atomic(width) => Ok(Insn::Atomic {
            width,
            op: atomic_op(imm)?,
            dst,
            src,
            offset,
        }),
        Form::LoadImm => load_imm(src.number(), dst, imm, next),
    }
}

/// The instruction that begins at a slot, or its least fault; next is the slot after it.
#[tactic(auto, unfolding(crate::specs::Reading::insn_of_slot))]
fn insn_of_slot(slot: Slot, next: Option<Slot>) -> Result<Insn, CodecFault>
    ensures { result ≡ insn_of_slot slot next }
{
    let Some(form) = form_of(slot.opcode) else {
        return Err(CodecFault::UnknownOpcode);
    };
    let (Some(dst), Some(src)) = (Reg::new(slot.dst), Reg::new(slot.src)) else {
        return Err(CodecFault::RegisterNumber);
    };
    if !only_its_fields(form, slot) {
        return Err(CodecFault::FieldNotZero);
    }
    insn_of_form(form, dst, src, slot, next)
}

/// The slot at the front of bytes, if it is complete.
fn front(bytes: &[u8]) -> Option<Slot>
    ensures { result ≡ front_slot bytes.now }
{
    if bytes.len() < 8 {
        return None;
    }
    Some(Slot::from_bytes(bytes))
}

/// The instruction at the front of bytes, or its least fault.
#[tactic(auto, unfolding(crate::specs::Reading::first_insn))]
fn first(bytes: &[u8]) -> Result<Insn, CodecFault>
    ensures { result ≡ first_insn bytes.now }
{
    if bytes.len() < 8 {
        return Err(CodecFault::Incomplete);
    }
    insn_of_slot(Slot::from_bytes(bytes), front(&bytes[8..]))
}

/// The instruction at the front of bytes, and how many bytes it takes; slot is where it is.
fn next(bytes: &[u8], slot: usize) -> Result<(Insn, usize), CodecError>
    ensures value { MatchResult result
        (λ x. (first_insn bytes.now ≡ Ok x.0) × (x.1 ≡ 8 * slots_of x.0))
        (FailsFirst bytes.now slot) }
    ensures within { IfOk result (λ x. x.1 ≤ length bytes.now) }
{
    match first(bytes) {
        Err(fault) => Err(CodecError::Refused { fault, slot }),
        Ok(insn) => {
            let len = 8 * slots(&insn) as usize;
            Ok((insn, len))
        }
    }
}

/// Adds an instruction, by a slice of one: a push of an enum within an enum isn't covered yet.
fn add(insns: &mut Vec<Insn>, insn: Insn) -> Result<(), CodecError>
    ensures ok { OnOk result (insns.new.items ≡ insns.old.items ++ insn ∷ []) }
    ensures err { IfErr result (λ e. e ≡ CodecError.Memory) }
{
    Ok(insns.extend_from_slice(&[insn])?)
}

/// The program in bytes, or its first fault.
fn all(alloc: Global, bytes: &[u8]) -> Result<Vec<Insn>, CodecError>
    ensures { MatchesUnlessMemory codec_refusal (λ v. v.items) result (reading bytes.now) }
{
    let mut insns = Vec::new(alloc);
    let mut rest = bytes;
    while !rest.is_empty() {
        let slot = (bytes.len() - rest.len()) / 8;
        let (insn, len) = match next(rest, slot) {
            Err(error) => return Err(error),
            Ok(found) => found,
        };
        add(&mut insns, insn)?;
        rest = &rest[len..];
    }
    Ok(insns)
}

/// The program that the bytes spell, 8 a slot, all of them. Where they spell none it refuses the first
/// slot with a fault, counted from 0, there by the least number. Memory may run out instead of either.
pub fn decode(alloc: Global, bytes: &[u8]) -> Result<Vec<Insn>, CodecError>
    // What is read is spelled so.
    ensures found { IfOk result (λ v. AreInsns v.items × (program_spelling v.items ≡ Ok bytes.now)) }
    // What is spelled so is read, unless memory runs out.
    ensures only { (insns : List Insn) → AreInsns insns → program_spelling insns ≡ Ok bytes.now
        → MatchesUnlessMemory codec_refusal (λ v. v.items) result (Ok insns) }
    // Which refusal it is.
    ensures exact { MatchesUnlessMemory codec_refusal (λ v. v.items) result (reading bytes.now) }
{
    all(alloc, bytes)
}
