//! The abstract state after an instruction.

ghost use Rattle.std.specs.{Prelude.{◌≡◌, ◌+◌, ◌*◌, ◌^◌, ◌+ℤ◌, ◌≤◌, pos}, Int.{cast_unsigned, w32}};
ghost use Rattle.bpf_insn_types.specs.{declared.insn.ImmKind.TheVariants.{Code as CodeKind}, Program.{code_target}};
ghost use Rattle.bpf_insn_types.specs.Sizes.{bytes_of};
ghost use Rattle.bpf_verify_model.specs.{States.{known_register}, Flow.{known_answer, known_behind}};
ghost use Rattle.bpf_verify_model.specs.Values.{known_operand, known_of_number, known_result};
ghost use Rattle.bpf_verify_model.specs.Flow.{with_known_result, number_of_size, with_store};
ghost use Rattle.bpf_verify_model.specs.Flow.{with_fetched, known_wide, known_after_call, address_in};

use bpf_insn_types::{AluOp, AtomicOp, FRAME_BYTES, ImmKind, Insn, Operand, Reg, Size, Width};
use bpf_verify_model::{AbstractValue, Helper, State, reg};
use bpf_verify_values::{bytes_of, code_target, helper_of, on_number, operand_value, result_of};
use value_range::{Operation, exact, norm, top};

/// A register gets what is given, if anything is.
fn with_known_result(state: &mut State, reg: Reg, value: Option<AbstractValue>)
    ensures { state.new ≡ with_known_result state.old reg value }
{
    if let Some(value) = value {
        state.set(reg, value);
    }
}

/// A number of n bytes.
fn number_of_size(size: Size) -> AbstractValue
    ensures { result ≡ number_of_size size }
{
    let greatest = match size {
        Size::B => 0xff,
        Size::H => 0xffff,
        Size::W => 0xffff_ffff,
        Size::Dw => 0xffff_ffff_ffff_ffff,
    };
    AbstractValue::Number(norm(0, greatest, 0))
}

/// A store to the frame writes its bytes.
fn with_store(state: &mut State, size: Size, dst: Reg, offset: i16)
    ensures { state.new ≡ with_store state.old (bytes_of size) offset (known_register state.old dst) }
{
    match state.register(dst) {
        AbstractValue::Frame(position) => {
            let size = bytes_of(size);
            let place = position as i64 + offset as i64;
            if place < 0 || (FRAME_BYTES as i64) < place + size as i64 {
                return;
            }
            state.own.write(place as usize, size as usize);
        }
        _ => {}
    }
}

/// An atomic operation puts the old number into a register (RFC 9669, section 5.3).
fn with_fetched(state: &mut State, width: Width, op: AtomicOp, src: Reg)
    ensures { state.new ≡ with_fetched state.old width op src }
{
    let old = AbstractValue::Number(top(width));
    match op {
        AtomicOp::Simple(_) => {}
        AtomicOp::Fetch(_) | AtomicOp::Xchg => state.set(src, old),
        AtomicOp::Cmpxchg => state.set(reg(0), old),
    }
}

/// The number of a two-slot load.
fn wide_number(imm: i32, next_imm: i32) -> u64
    ensures { result ≡ cast_unsigned w32 imm + 2 ^ 32 * cast_unsigned w32 next_imm }
{
    imm.cast_unsigned() as u64 + 0x1_0000_0000 * next_imm.cast_unsigned() as u64
}

/// What a two-slot load puts into its register.
fn known_wide(slot: u32, kind: ImmKind, imm: i32, next_imm: i32) -> AbstractValue
    requires { slot ≤ 4096 }
    ensures { result ≡ known_wide slot kind imm next_imm }
{
    match kind {
        ImmKind::Number => AbstractValue::Number(exact(wide_number(imm, next_imm))),
        ImmKind::Code => match code_target(slot, imm) {
            None => AbstractValue::Unwritten,
            Some(start) => AbstractValue::Code(start),
        },
        ImmKind::Map => AbstractValue::Map(imm.cast_unsigned()),
        ImmKind::MapValue => {
            let offset = exact(next_imm.cast_unsigned() as u64);
            AbstractValue::Area(imm.cast_unsigned(), offset)
        }
        _ => AbstractValue::Unwritten,
    }
}

/// After a call R0 has the answer, and R1 to R5 are unwritten.
fn known_after_call(state: &mut State, answer: AbstractValue)
    ensures { state.new ≡ known_after_call state.old answer }
{
    state.registers.set(reg(0), answer);
    state.registers.set(reg(1), AbstractValue::Unwritten);
    state.registers.set(reg(2), AbstractValue::Unwritten);
    state.registers.set(reg(3), AbstractValue::Unwritten);
    state.registers.set(reg(4), AbstractValue::Unwritten);
    state.registers.set(reg(5), AbstractValue::Unwritten);
}

/// The address of one of a map's values, or 0.
fn address_in(map: u32, count: u32) -> AbstractValue
    ensures { result ≡ address_in map (Some count) }
{
    let last = (8 * count as u64).saturating_sub(8);
    AbstractValue::AreaOrNull(map, norm(0, last, 3))
}

/// What a helper answers.
fn known_answer(sizes: &[u32], state: &State, helper: Option<Helper>) -> AbstractValue
    ensures { result ≡ known_answer sizes.now state.now helper }
{
    match helper {
        Some(Helper::Lookup) => match state.register(reg(1)) {
            AbstractValue::Map(map) => match sizes.get(map as usize) {
                None => AbstractValue::Unwritten,
                Some(count) => address_in(map, *count),
            },
            _ => AbstractValue::Unwritten,
        },
        Some(Helper::Loop) => AbstractValue::Number(top(Width::W64)),
        None => AbstractValue::Unwritten,
    }
}

/// Behind arithmetic.
fn behind_alu(state: &mut State, width: Width, op: AluOp, dst: Reg, operand: Operand)
    ensures { state.new ≡ with_known_result state.old dst (known_result width op (known_register state.old dst)
        (known_operand state.old operand)) }
{
    let first = state.register(dst);
    let second = operand_value(state, operand);
    with_known_result(state, dst, result_of(width, op, first, second));
}

/// Behind an operation on one number.
fn behind_one(state: &mut State, operation: Operation, width: Width, dst: Reg, src: Reg)
    ensures { state.new ≡ with_known_result state.old dst (known_of_number operation width
        (known_register state.old src)) }
{
    let value = state.register(src);
    with_known_result(state, dst, on_number(operation, width, value));
}

/// Leaves the abstract state after an instruction that doesn't jump.
#[tactic(auto, unfolding(bpf_verify_model::specs::Flow::known_behind))]
pub fn state_after(sizes: &[u32], slot: u32, state: &mut State, insn: Insn)
    requires { slot ≤ 4096 }
    ensures { state.new ≡ known_behind sizes.now slot state.old insn }
{
    match insn {
        Insn::Alu {
            width,
            op,
            dst,
            operand,
        } => behind_alu(state, width, op, dst, operand),
        Insn::Neg { width, dst } => behind_one(state, Operation::Neg, width, dst, dst),
        Insn::Movsx {
            width,
            bits,
            dst,
            src,
        } => behind_one(state, Operation::Movsx(bits), width, dst, src),
        Insn::Endian { order, bits, dst } => {
            behind_one(state, Operation::Endian(order, bits), Width::W64, dst, dst)
        }
        Insn::Load { size, dst, .. } => state.set(dst, number_of_size(size)),
        Insn::LoadSx { dst, .. } => state.set(dst, AbstractValue::Number(top(Width::W64))),
        Insn::StoreImm {
            size,
            dst,
            offset,
            ..
        } => with_store(state, size, dst, offset),
        Insn::Store {
            size,
            dst,
            offset,
            ..
        } => with_store(state, size, dst, offset),
        Insn::Atomic { width, op, src, .. } => with_fetched(state, width, op, src),
        Insn::LoadImm {
            kind,
            dst,
            imm,
            next_imm,
        } => state.set(dst, known_wide(slot, kind, imm, next_imm)),
        Insn::Call { callee, imm } => {
            let answer = known_answer(sizes, state, helper_of(callee, imm));
            known_after_call(state, answer);
        }
        _ => {}
    }
}
