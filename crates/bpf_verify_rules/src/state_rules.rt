//! The rules that an instruction breaks by the abstract values of registers.

ghost use Rattle.std.specs.Prelude.{◌≡◌, ◌≤◌};
ghost use Rattle.bpf_verify_model.specs.declared.helper.Helper.TheVariants.{Lookup};
ghost use Rattle.bpf_verify_model.specs.Accesses.{memory_access_of};
ghost use Rattle.bpf_verify_model.specs.Rules.{unwritten_register, unwritten_operand, unwritten_compared};
ghost use Rattle.bpf_verify_model.specs.Rules.{unwritten_arguments, unwritten_operands, reads_unwritten};
ghost use Rattle.bpf_verify_model.specs.Rules.{has_wrong_arithmetic_operands, has_wrong_comparison_operands};
ghost use Rattle.bpf_verify_model.specs.Rules.{compares_with_no_number, stores_no_number, place_fault, bytes_fault};
ghost use Rattle.bpf_verify_model.specs.Rules.{access_fault, is_key, is_map, is_code, is_ctx_argument};
ghost use Rattle.bpf_verify_model.specs.Rules.{has_wrong_loop_arguments, helper_fault, call_fault, operand_fault};
ghost use Rattle.bpf_verify_model.specs.Rules.{state_fault, is_bit, exit_fault, or_else};

use crate::access::{access_of, reads, writes};
use crate::places::{
    has_unwritten_byte, is_ctx, is_memory, is_outside, is_part_of_half, misses_alignment,
};
use bpf_insn_types::{AluOp, AtomicOp, Insn, Operand, Reg};
use bpf_verify_model::{AbstractValue, Helper, MemoryAccess, Rule, State, reg};
use bpf_verify_values::{compares, helper_of, is_number, is_unwritten, operand_value, result_of};

fn unwritten(state: &State, reg: Reg) -> bool
    ensures { result ≡ unwritten_register state.now reg }
{
    is_unwritten(state.register(reg))
}

fn unwritten_operand(state: &State, operand: Operand) -> bool
    ensures { result ≡ unwritten_operand state.now operand }
{
    match operand {
        Operand::Imm(_) => false,
        Operand::Reg(reg) => unwritten(state, reg),
    }
}

fn unwritten_compared(state: &State, op: AtomicOp) -> bool
    ensures { result ≡ unwritten_compared state.now op }
{
    match op {
        AtomicOp::Cmpxchg => unwritten(state, reg(0)),
        _ => false,
    }
}

fn unwritten_arguments(state: &State, helper: Option<Helper>) -> bool
    ensures { result ≡ unwritten_arguments state.now helper }
{
    match helper {
        Some(Helper::Lookup) => unwritten(state, reg(1)) || unwritten(state, reg(2)),
        Some(Helper::Loop) => {
            unwritten(state, reg(1))
                || unwritten(state, reg(2))
                || unwritten(state, reg(3))
                || unwritten(state, reg(4))
        }
        None => false,
    }
}

/// What arithmetic reads: a move its operand alone.
fn unwritten_operands(state: &State, op: AluOp, dst: Reg, operand: Operand) -> bool
    ensures { result ≡ unwritten_operands state.now op dst operand }
{
    match op {
        AluOp::Mov => unwritten_operand(state, operand),
        _ => unwritten(state, dst) || unwritten_operand(state, operand),
    }
}

/// V12: it reads an unwritten register.
fn reads_unwritten(state: &State, insn: Insn) -> bool
    ensures { result ≡ reads_unwritten state.now insn }
{
    match insn {
        Insn::Alu {
            op,
            dst,
            operand,
            ..
        } => unwritten_operands(state, op, dst, operand),
        Insn::Neg { dst, .. } => unwritten(state, dst),
        Insn::Movsx { src, .. } => unwritten(state, src),
        Insn::Endian { dst, .. } => unwritten(state, dst),
        Insn::Jump { dst, operand, .. } => {
            unwritten(state, dst) || unwritten_operand(state, operand)
        }
        Insn::Call { callee, imm } => unwritten_arguments(state, helper_of(callee, imm)),
        Insn::Exit => unwritten(state, reg(0)),
        Insn::Load { src, .. } => unwritten(state, src),
        Insn::LoadSx { src, .. } => unwritten(state, src),
        Insn::StoreImm { dst, .. } => unwritten(state, dst),
        Insn::Store { dst, src, .. } => unwritten(state, dst) || unwritten(state, src),
        Insn::Atomic { op, dst, src, .. } => {
            unwritten(state, dst) || unwritten(state, src) || unwritten_compared(state, op)
        }
        _ => false,
    }
}

/// V13: arithmetic with an operand that isn't of a kind that it takes.
fn has_wrong_arithmetic_operands(state: &State, insn: Insn) -> bool
    ensures { result ≡ has_wrong_arithmetic_operands state.now insn }
{
    match insn {
        Insn::Alu {
            width,
            op,
            dst,
            operand,
        } => result_of(
            width,
            op,
            state.register(dst),
            operand_value(state, operand),
        )
        .is_none(),
        Insn::Neg { dst, .. } => !is_number(state.register(dst)),
        Insn::Movsx { src, .. } => !is_number(state.register(src)),
        Insn::Endian { dst, .. } => !is_number(state.register(dst)),
        _ => false,
    }
}

/// V14: a comparison with an operand that isn't of a kind that it takes.
fn has_wrong_comparison_operands(state: &State, insn: Insn) -> bool
    ensures { result ≡ has_wrong_comparison_operands state.now insn }
{
    match insn {
        Insn::Jump {
            width,
            compare,
            dst,
            operand,
            ..
        } => !compares(state, width, compare, operand, state.register(dst)),
        _ => false,
    }
}

fn compares_with_no_number(state: &State, op: AtomicOp) -> bool
    ensures { result ≡ compares_with_no_number state.now op }
{
    match op {
        AtomicOp::Cmpxchg => !is_number(state.register(reg(0))),
        _ => false,
    }
}

/// V15: what is stored, or an atomic operation's operand, isn't a number.
fn stores_no_number(state: &State, insn: Insn) -> bool
    ensures { result ≡ stores_no_number state.now insn }
{
    match insn {
        Insn::Store { src, .. } => !is_number(state.register(src)),
        Insn::Atomic { op, src, .. } => {
            !is_number(state.register(src)) || compares_with_no_number(state, op)
        }
        _ => false,
    }
}

/// V12 to V15: what an instruction reads.
fn operand_fault(state: &State, insn: &Insn) -> Option<Rule>
    ensures { result ≡ operand_fault state.now insn.now }
{
    let unwritten = reads_unwritten(state, *insn);
    let arithmetic = has_wrong_arithmetic_operands(state, *insn);
    let comparison = has_wrong_comparison_operands(state, *insn);
    let stored = stores_no_number(state, *insn);
    if unwritten {
        Some(Rule::UnwrittenRegister)
    } else if arithmetic {
        Some(Rule::ArithmeticOperand)
    } else if comparison {
        Some(Rule::ComparisonOperand)
    } else if stored {
        Some(Rule::StoredOperand)
    } else {
        None
    }
}

/// V16 to V19: where an access goes.
fn place_fault(sizes: &[u32], access: &MemoryAccess, base: &AbstractValue) -> Option<Rule>
    requires { 1 ≤ access.now.size }
    ensures { result ≡ place_fault sizes.now access.now base.now }
{
    let offset = access.offset;
    let size = access.size;
    let memory = is_memory(*base);
    let part = is_part_of_half(size, *base);
    let misaligned = misses_alignment(size, offset, *base);
    let outside = is_outside(sizes, size, offset, *base);
    if !memory {
        Some(Rule::AccessBase)
    } else if part {
        Some(Rule::AreaAccessSize)
    } else if misaligned {
        Some(Rule::AccessAlignment)
    } else if outside {
        Some(Rule::AccessBounds)
    } else {
        None
    }
}

/// V20 of an access: a byte that is read isn't written. V21: a callback writes main's frame.
fn bytes_fault(state: &State, access: &MemoryAccess, base: &AbstractValue) -> Option<Rule>
    ensures { result ≡ bytes_fault state.now access.now base.now }
{
    let unwritten = has_unwritten_byte(state, access.size, access.offset, *base);
    let of_main = is_ctx(*base);
    if reads(access.kind) && unwritten {
        Some(Rule::UnwrittenByte)
    } else if writes(access.kind) && of_main {
        Some(Rule::CtxWrite)
    } else {
        None
    }
}

/// The first of two faults, where there is one; else the later.
pub fn or_else(first: Option<Rule>, later: Option<Rule>) -> Option<Rule>
    ensures { result ≡ or_else first later }
{
    match first {
        Some(rule) => Some(rule),
        None => later,
    }
}

/// V16 to V21: the access that an instruction makes.
fn access_fault(sizes: &[u32], state: &State, insn: Insn) -> Option<Rule>
    ensures { result ≡ access_fault sizes.now state.now (memory_access_of insn) }
{
    match access_of(insn) {
        None => None,
        Some(access) => {
            let base = state.register(access.base);
            or_else(
                place_fault(sizes, &access, &base),
                bytes_fault(state, &access, &base),
            )
        }
    }
}

/// The address of a key.
fn is_key(value: AbstractValue) -> bool
    ensures { result ≡ is_key value }
{
    match value {
        AbstractValue::Frame(position) | AbstractValue::Ctx(position) => position % 4 == 0
            && position <= 508,
        _ => false,
    }
}

fn is_map(value: AbstractValue) -> bool
    ensures { result ≡ is_map value }
{
    matches!(value, AbstractValue::Map(_))
}

fn is_code(value: AbstractValue) -> bool
    ensures { result ≡ is_code value }
{
    matches!(value, AbstractValue::Code(_))
}

/// A loop's ctx: an address of main's frame, or the number 0.
fn is_ctx_argument(value: AbstractValue) -> bool
    ensures { result ≡ is_ctx_argument value }
{
    match value {
        AbstractValue::Frame(_) => true,
        AbstractValue::Number(number) => number.hi() == 0,
        _ => false,
    }
}

/// V20 and V22 of a lookup.
fn lookup_fault(state: &State) -> Option<Rule>
    ensures { result ≡ helper_fault state.now (Some Lookup) }
{
    let unwritten = has_unwritten_byte(state, 4, 0, state.register(reg(2)));
    let mistaken = !is_map(state.register(reg(1))) || !is_key(state.register(reg(2)));
    if unwritten {
        Some(Rule::UnwrittenByte)
    } else if mistaken {
        Some(Rule::HelperArgument)
    } else {
        None
    }
}

fn has_wrong_loop_arguments(state: &State) -> bool
    ensures { result ≡ has_wrong_loop_arguments state.now }
{
    !is_number(state.register(reg(1)))
        || !is_code(state.register(reg(2)))
        || !is_ctx_argument(state.register(reg(3)))
        || !is_number(state.register(reg(4)))
}

/// V20 and V22 of a helper.
fn helper_fault(state: &State, helper: Option<Helper>) -> Option<Rule>
    ensures { result ≡ helper_fault state.now helper }
{
    match helper {
        None => None,
        Some(Helper::Lookup) => lookup_fault(state),
        Some(Helper::Loop) => if has_wrong_loop_arguments(state) {
            Some(Rule::HelperArgument)
        } else {
            None
        },
    }
}

fn call_fault(state: &State, insn: Insn) -> Option<Rule>
    ensures { result ≡ call_fault state.now insn }
{
    match insn {
        Insn::Call { callee, imm } => helper_fault(state, helper_of(callee, imm)),
        _ => None,
    }
}

/// The least of V12 to V22 that an instruction breaks in a state.
#[tactic(auto, unfolding(bpf_verify_model::specs::Rules::state_fault))]
pub fn state_fault(sizes: &[u32], state: &State, insn: &Insn) -> Option<Rule>
    ensures { result ≡ state_fault sizes.now state.now insn.now }
{
    let operands = operand_fault(state, insn);
    let access = access_fault(sizes, state, *insn);
    let call = call_fault(state, *insn);
    or_else(operands, or_else(access, call))
}

fn is_bit(value: AbstractValue) -> bool
    ensures { result ≡ is_bit value }
{
    match value {
        AbstractValue::Number(number) => number.hi() <= 1,
        _ => false,
    }
}

/// V24: a callback doesn't end with 0 or 1. V25: main doesn't end with a number. Main is function 0.
pub fn exit_fault(function: u32, state: &State, insn: Insn) -> Option<Rule>
    ensures { result ≡ exit_fault function state.now insn }
{
    match insn {
        Insn::Exit => {
            let value = state.register(reg(0));
            if function == 0 {
                if is_number(value) {
                    None
                } else {
                    Some(Rule::MainResult)
                }
            } else {
                if is_bit(value) {
                    None
                } else {
                    Some(Rule::CallbackResult)
                }
            }
        }
        _ => None,
    }
}
