//! What operators give on the abstract values of registers.

ghost use Rattle.std.specs.Prelude.{◌≡◌};
ghost use Rattle.bpf_verify_model.specs.Values.{known_operand, known_of_number, known_of_numbers, known_copy};
ghost use Rattle.bpf_verify_model.specs.Values.{known_position, known_area, known_moved, known_sum, known_result};
ghost use Rattle.bpf_verify_model.specs.Values.{is_number_value, is_unwritten, is_null_check, compares};

use bpf_insn_types::{AluOp, Compare, FRAME_BYTES, MAX_OFFSET, Operand, Width, alu_word};
use bpf_verify_model::{AbstractValue, State};
use value_range::{Operation, Range, alu, exact};

/// Whether it is a number.
pub fn is_number(value: AbstractValue) -> bool
    ensures { result ≡ is_number_value value }
{
    matches!(value, AbstractValue::Number(_))
}

/// Whether it can't be read.
pub fn is_unwritten(value: AbstractValue) -> bool
    ensures { result ≡ is_unwritten value }
{
    matches!(value, AbstractValue::Unwritten)
}

/// The abstract value of an operand: an immediate is sign-extended.
pub fn operand_value(state: &State, operand: Operand) -> AbstractValue
    ensures { result ≡ known_operand state.now operand }
{
    match operand {
        Operand::Imm(imm) => AbstractValue::Number(exact((imm as i64).cast_unsigned())),
        Operand::Reg(reg) => state.register(reg),
    }
}

/// What an operation on one number gives.
pub fn on_number(operation: Operation, width: Width, value: AbstractValue) -> Option<AbstractValue>
    ensures { result ≡ known_of_number operation width value }
{
    match value {
        AbstractValue::Number(a) => {
            let range = alu(operation, width, a, a);
            Some(AbstractValue::Number(range))
        }
        _ => None,
    }
}

/// What an operator gives on two numbers.
fn on_numbers(width: Width, op: AluOp, a: AbstractValue, b: AbstractValue) -> Option<AbstractValue>
    ensures { result ≡ known_of_numbers width op a b }
{
    match a {
        AbstractValue::Number(a) => match b {
            AbstractValue::Number(b) => {
                let range = alu(Operation::Alu(op), width, a, b);
                Some(AbstractValue::Number(range))
            }
            _ => None,
        },
        _ => None,
    }
}

/// What a move gives: of 64 bits any value that is written, of 32 bits a number.
fn copied(width: Width, value: AbstractValue) -> Option<AbstractValue>
    ensures { result ≡ known_copy width value }
{
    match width {
        Width::W32 => on_number(Operation::Alu(AluOp::Mov), Width::W32, value),
        Width::W64 => match value {
            AbstractValue::Unwritten => None,
            _ => Some(value),
        },
    }
}

/// The position that a known number leads to from another, within a frame and its end.
fn moved_position(op: AluOp, position: u32, n: Range) -> Option<u32>
    ensures { result ≡ known_position op position n }
{
    if n.lo() != n.hi() {
        return None;
    }
    let moved = alu_word(Width::W64, op, position as u64, n.lo());
    if moved <= FRAME_BYTES as u64 {
        Some(moved as u32)
    } else {
        None
    }
}

/// A number moves an area address up, to at most 524,288.
fn area_sum(map: u32, offset: Range, n: Range) -> Option<AbstractValue>
    ensures { result ≡ known_area map offset n }
{
    let most = u64::from(MAX_OFFSET);
    if offset.hi() <= most && n.hi() <= most - offset.hi() {
        let range = alu(Operation::Alu(AluOp::Add), Width::W64, offset, n);
        Some(AbstractValue::Area(map, range))
    } else {
        None
    }
}

/// A number added or taken away at 64 bits.
fn moved(op: AluOp, a: AbstractValue, n: Range) -> Option<AbstractValue>
    ensures { result ≡ known_moved op a n }
{
    match a {
        AbstractValue::Number(a) => {
            let range = alu(Operation::Alu(op), Width::W64, a, n);
            Some(AbstractValue::Number(range))
        }
        AbstractValue::Frame(position) => {
            Some(AbstractValue::Frame(moved_position(op, position, n)?))
        }
        AbstractValue::Ctx(position) => Some(AbstractValue::Ctx(moved_position(op, position, n)?)),
        AbstractValue::Area(map, offset) => match op {
            AluOp::Add => area_sum(map, offset, n),
            _ => None,
        },
        _ => None,
    }
}

/// A sum or a difference.
fn sum(width: Width, op: AluOp, a: AbstractValue, b: AbstractValue) -> Option<AbstractValue>
    ensures { result ≡ known_sum width op a b }
{
    match width {
        Width::W32 => on_numbers(Width::W32, op, a, b),
        Width::W64 => match b {
            AbstractValue::Number(n) => moved(op, a, n),
            _ => None,
        },
    }
}

/// What an operator gives, if its operands are of kinds that it takes.
pub fn result_of(
    width: Width,
    op: AluOp,
    a: AbstractValue,
    b: AbstractValue,
) -> Option<AbstractValue>
    ensures { result ≡ known_result width op a b }
{
    match op {
        AluOp::Mov => copied(width, b),
        AluOp::Add => sum(width, AluOp::Add, a, b),
        AluOp::Sub => sum(width, AluOp::Sub, a, b),
        _ => on_numbers(width, op, a, b),
    }
}

/// Whether a comparison is the null check of an address that may be null.
pub(crate) fn is_null_check(width: Width, compare: Compare, operand: Operand) -> bool
    ensures { result ≡ is_null_check width compare operand }
{
    match (width, compare, operand) {
        (Width::W64, Compare::Eq | Compare::Ne, Operand::Imm(0)) => true,
        _ => false,
    }
}

/// Whether a comparison takes what a register has.
pub fn compares(
    state: &State,
    width: Width,
    compare: Compare,
    operand: Operand,
    value: AbstractValue,
) -> bool
    ensures { result ≡ compares state.now width compare operand value }
{
    match value {
        AbstractValue::Number(_) => is_number(operand_value(state, operand)),
        AbstractValue::AreaOrNull(_, _) => is_null_check(width, compare, operand),
        _ => false,
    }
}
