//! What an opcode says (RFC 9669, section 3): the one place of the opcode tables.

ghost use Rattle.std.specs.Prelude.{◌≡◌, ◌/◌, ◌%◌, ◌≤◌};
ghost use Rattle.bpf_insn.specs.Opcode.{alu_code, alu_class, jump_code, jump_class, size_bits, opcode, alu_op_of_code};
ghost use Rattle.bpf_insn.specs.Opcode.{compare_at, size_at, alu_form, jump_form, load_form};
ghost use Rattle.bpf_insn.specs.{Opcode.{store_form, form_at}, Reading.{has_signed, uses, unused_are_zero}};

use crate::slot::Slot;
use bpf_insn_types::{AluOp, ByteOrder, Compare, Size, Width};

/// What an opcode says: the form of the instruction, before its other fields. A signed division or modulo has the
/// opcode of the plain one.
#[derive(Clone, Copy)]
pub enum Form {
    AluImm(Width, AluOp),
    AluReg(Width, AluOp),
    Neg(Width),
    Endian(ByteOrder),
    Ja,
    Ja32,
    JumpImm(Width, Compare),
    JumpReg(Width, Compare),
    Call,
    Exit,
    Load(Size),
    LoadSx(Size),
    StoreImm(Size),
    Store(Size),
    Atomic(Width),
    LoadImm,
}

fn op_of_code(code: u8) -> Option<AluOp>
    ensures { result ≡ alu_op_of_code code }
{
    match code {
        0x0 => Some(AluOp::Add),
        0x1 => Some(AluOp::Sub),
        0x2 => Some(AluOp::Mul),
        0x3 => Some(AluOp::Div),
        0x4 => Some(AluOp::Or),
        0x5 => Some(AluOp::And),
        0x6 => Some(AluOp::Lsh),
        0x7 => Some(AluOp::Rsh),
        0x9 => Some(AluOp::Mod),
        0xa => Some(AluOp::Xor),
        0xb => Some(AluOp::Mov),
        0xc => Some(AluOp::Arsh),
        _ => None,
    }
}

fn compare_of(code: u8) -> Option<Compare>
    ensures { result ≡ compare_at code }
{
    match code {
        0x1 => Some(Compare::Eq),
        0x2 => Some(Compare::Gt),
        0x3 => Some(Compare::Ge),
        0x4 => Some(Compare::Set),
        0x5 => Some(Compare::Ne),
        0x6 => Some(Compare::Sgt),
        0x7 => Some(Compare::Sge),
        0xa => Some(Compare::Lt),
        0xb => Some(Compare::Le),
        0xc => Some(Compare::Slt),
        0xd => Some(Compare::Sle),
        _ => None,
    }
}

fn size_of_bits(bits: u8) -> Size
    ensures { result ≡ size_at bits }
{
    match bits {
        0 => Size::W,
        1 => Size::H,
        2 => Size::B,
        _ => Size::Dw,
    }
}

/// The forms of arithmetic at a width.
fn arithmetic(width: Width, opcode: u8) -> Option<Form>
    ensures { result ≡ alu_form width (opcode / 16) (opcode / 8 % 2) }
{
    match (opcode / 16, opcode / 8 % 2, width) {
        (0x8, 0, _) => Some(Form::Neg(width)),
        (0xd, 0, Width::W32) => Some(Form::Endian(ByteOrder::Le)),
        (0xd, 1, Width::W32) => Some(Form::Endian(ByteOrder::Be)),
        (0xd, 0, Width::W64) => Some(Form::Endian(ByteOrder::Swap)),
        (code, 0, _) => Some(Form::AluImm(width, op_of_code(code)?)),
        (code, _, _) => Some(Form::AluReg(width, op_of_code(code)?)),
    }
}

/// The forms of jumps, calls and exit at a width.
fn jump(width: Width, opcode: u8) -> Option<Form>
    ensures { result ≡ jump_form width (opcode / 16) (opcode / 8 % 2) }
{
    match (opcode / 16, opcode / 8 % 2, width) {
        (0x0, 0, Width::W64) => Some(Form::Ja),
        (0x0, 0, Width::W32) => Some(Form::Ja32),
        (0x8, 0, Width::W64) => Some(Form::Call),
        (0x9, 0, Width::W64) => Some(Form::Exit),
        (code, 0, _) => Some(Form::JumpImm(width, compare_of(code)?)),
        (code, _, _) => Some(Form::JumpReg(width, compare_of(code)?)),
    }
}

/// The forms of loads.
fn load(opcode: u8) -> Option<Form>
    ensures { result ≡ load_form (opcode / 32) (size_at (opcode / 8 % 4)) }
{
    let size = size_of_bits(opcode / 8 % 4);
    match (opcode / 32, size) {
        (3, _) => Some(Form::Load(size)),
        (4, Size::B | Size::H | Size::W) => Some(Form::LoadSx(size)),
        _ => None,
    }
}

/// The forms of stores of a register and of atomics.
fn store(opcode: u8) -> Option<Form>
    ensures { result ≡ store_form (opcode / 32) (size_at (opcode / 8 % 4)) }
{
    let size = size_of_bits(opcode / 8 % 4);
    match (opcode / 32, size) {
        (3, _) => Some(Form::Store(size)),
        (6, Size::W) => Some(Form::Atomic(Width::W32)),
        (6, Size::Dw) => Some(Form::Atomic(Width::W64)),
        _ => None,
    }
}

/// The form that an opcode says, by its class in the low three bits, or None where no form has it.
pub(crate) fn form_of(opcode: u8) -> Option<Form>
    ensures { result ≡ form_at opcode }
{
    match opcode % 8 {
        0 if opcode == 0x18 => Some(Form::LoadImm),
        0 => None,
        1 => load(opcode),
        2 if opcode / 32 == 3 => Some(Form::StoreImm(size_of_bits(opcode / 8 % 4))),
        2 => None,
        3 => store(opcode),
        4 => arithmetic(Width::W32, opcode),
        5 => jump(Width::W64, opcode),
        6 => jump(Width::W32, opcode),
        _ => arithmetic(Width::W64, opcode),
    }
}

fn code_of_op(op: AluOp) -> u8
    ensures value { result ≡ alu_code op }
    ensures bound { result ≤ 12 }
{
    match op {
        AluOp::Add => 0x0,
        AluOp::Sub => 0x1,
        AluOp::Mul => 0x2,
        AluOp::Div | AluOp::Sdiv => 0x3,
        AluOp::Or => 0x4,
        AluOp::And => 0x5,
        AluOp::Lsh => 0x6,
        AluOp::Rsh => 0x7,
        AluOp::Mod | AluOp::Smod => 0x9,
        AluOp::Xor => 0xa,
        AluOp::Mov => 0xb,
        AluOp::Arsh => 0xc,
    }
}

fn code_of_compare(compare: Compare) -> u8
    ensures value { result ≡ jump_code compare }
    ensures bound { result ≤ 13 }
{
    match compare {
        Compare::Eq => 0x1,
        Compare::Gt => 0x2,
        Compare::Ge => 0x3,
        Compare::Set => 0x4,
        Compare::Ne => 0x5,
        Compare::Sgt => 0x6,
        Compare::Sge => 0x7,
        Compare::Lt => 0xa,
        Compare::Le => 0xb,
        Compare::Slt => 0xc,
        Compare::Sle => 0xd,
    }
}

fn bits_of_size(size: Size) -> u8
    ensures value { result ≡ size_bits size }
    ensures bound { result ≤ 3 }
{
    match size {
        Size::W => 0,
        Size::H => 1,
        Size::B => 2,
        Size::Dw => 3,
    }
}

fn class_of_alu(width: Width) -> u8
    ensures value { result ≡ alu_class width }
    ensures bound { result ≤ 7 }
{
    match width {
        Width::W32 => 4,
        Width::W64 => 7,
    }
}

fn class_of_jump(width: Width) -> u8
    ensures value { result ≡ jump_class width }
    ensures bound { result ≤ 6 }
{
    match width {
        Width::W32 => 6,
        Width::W64 => 5,
    }
}

/// The opcode of a form.
pub(crate) fn opcode_of(form: Form) -> u8
    ensures { result ≡ opcode form }
{
    match form {
        Form::AluImm(width, op) => 16 * code_of_op(op) + class_of_alu(width),
        Form::AluReg(width, op) => 16 * code_of_op(op) + 8 + class_of_alu(width),
        Form::Neg(width) => 0x80 + class_of_alu(width),
        Form::Endian(ByteOrder::Le) => 0xd4,
        Form::Endian(ByteOrder::Be) => 0xdc,
        Form::Endian(ByteOrder::Swap) => 0xd7,
        Form::Ja => 0x05,
        Form::Ja32 => 0x06,
        Form::JumpImm(width, compare) => 16 * code_of_compare(compare) + class_of_jump(width),
        Form::JumpReg(width, compare) => 16 * code_of_compare(compare) + 8 + class_of_jump(width),
        Form::Call => 0x85,
        Form::Exit => 0x95,
        Form::Load(size) => 0x61 + 8 * bits_of_size(size),
        Form::LoadSx(size) => 0x81 + 8 * bits_of_size(size),
        Form::StoreImm(size) => 0x62 + 8 * bits_of_size(size),
        Form::Store(size) => 0x63 + 8 * bits_of_size(size),
        Form::Atomic(Width::W32) => 0xc3,
        Form::Atomic(Width::W64) => 0xdb,
        Form::LoadImm => 0x18,
    }
}

/// Whether the offset of an operation says if it is signed.
fn has_signed(op: AluOp) -> bool
    ensures { result ≡ has_signed op }
{
    matches!(op, AluOp::Div | AluOp::Sdiv | AluOp::Mod | AluOp::Smod)
}

/// Whether a form uses the fields dst, src, offset and imm, in this order.
fn uses(form: Form) -> (bool, bool, bool, bool)
    ensures { result ≡ uses form }
{
    match form {
        Form::AluImm(_, op) => (true, false, has_signed(op), true),
        Form::AluReg(_, AluOp::Mov) => (true, true, true, false),
        Form::AluReg(_, op) => (true, true, has_signed(op), false),
        Form::Neg(_) => (true, false, false, false),
        Form::Endian(_) => (true, false, false, true),
        Form::Ja => (false, false, true, false),
        Form::Ja32 => (false, false, false, true),
        Form::JumpImm(..) | Form::StoreImm(_) => (true, false, true, true),
        Form::Call => (false, true, false, true),
        Form::Exit => (false, false, false, false),
        Form::JumpReg(..) | Form::Load(_) | Form::LoadSx(_) | Form::Store(_) => {
            (true, true, true, false)
        }
        Form::Atomic(_) => (true, true, true, true),
        Form::LoadImm => (true, true, false, true),
    }
}

/// Whether each field that the form doesn't use is zero.
pub(crate) fn only_its_fields(form: Form, slot: Slot) -> bool
    ensures { result ≡ unused_are_zero form slot }
{
    let (dst, src, offset, imm) = uses(form);
    (dst || slot.dst == 0)
        && (src || slot.src == 0)
        && (offset || slot.offset == 0)
        && (imm || slot.imm == 0)
}
