//! What an instruction breaks by itself (V7 to V11, V23), and what the rules on its slot ask of it (V3
//! to V5).

ghost use Rattle.std.specs.Prelude.{◌≡◌, ◌==◌};
ghost use Rattle.bpf_verify_model.specs.Rules.{jump_distance, goes_on, is_code_load, calls_no_helper, calls_otherwise};
ghost use Rattle.bpf_verify_model.specs.Rules.{loads_outer, count_of_map, has_byte, loads_no_map, fetches_into_r10};
ghost use Rattle.bpf_verify_model.specs.Rules.{writes_r10, insn_fault, uses_callbacks, callback_fault};

use bpf_insn_types::{AtomicOp, Callee, ImmKind, Insn, Reg};
use bpf_verify_model::{Helper, Rule};
use bpf_verify_values::helper_of;

/// The distance of a jump.
pub fn jump_distance(insn: Insn) -> Option<i32>
    ensures { result ≡ jump_distance insn }
{
    match insn {
        Insn::Ja { offset } => Some(offset as i32),
        Insn::Ja32 { imm } => Some(imm),
        Insn::Jump { offset, .. } => Some(offset as i32),
        _ => None,
    }
}

/// Whether a function goes on after an instruction: it does but for an exit and the unconditional
/// jumps.
pub fn goes_on(insn: Insn) -> bool
    ensures { result ≡ goes_on insn }
{
    match insn {
        Insn::Ja { .. } | Insn::Ja32 { .. } | Insn::Exit => false,
        _ => true,
    }
}

/// Whether an instruction is the load of a code address.
pub fn is_code_load(insn: Insn) -> bool
    ensures { result ≡ is_code_load insn }
{
    match insn {
        Insn::LoadImm {
            kind: ImmKind::Code,
            ..
        } => true,
        _ => false,
    }
}

/// V7: a helper other than 1 and 181.
fn calls_no_helper(insn: Insn) -> bool
    ensures { result ≡ calls_no_helper insn }
{
    match insn {
        Insn::Call {
            callee: Callee::Helper,
            imm,
        } => helper_of(Callee::Helper, imm).is_none(),
        _ => false,
    }
}

/// V8: a call of another kind.
fn calls_otherwise(insn: Insn) -> bool
    ensures { result ≡ calls_otherwise insn }
{
    match insn {
        Insn::Call {
            callee: Callee::Local | Callee::Btf,
            ..
        } => true,
        _ => false,
    }
}

/// V9: a load of a map's file descriptor or of a variable.
fn loads_outer(insn: Insn) -> bool
    ensures { result ≡ loads_outer insn }
{
    match insn {
        Insn::LoadImm {
            kind: ImmKind::MapFd | ImmKind::MapFdValue | ImmKind::Variable,
            ..
        } => true,
        _ => false,
    }
}

/// How many values a map has, if there is one of this number.
fn count_of_map(sizes: &[u32], imm: i32) -> Option<u32>
    ensures { result ≡ count_of_map sizes.now imm }
{
    if imm < 0 {
        return None;
    }
    sizes.get(imm as usize).copied()
}

/// Whether a byte of a map's values is there.
fn has_byte(count: Option<u32>, offset: i32) -> bool
    ensures { result ≡ has_byte count offset }
{
    match count {
        None => false,
        Some(count) => 0 <= offset && (offset as i64) < 8 * count as i64,
    }
}

/// V10: no such map, or no such byte of its values.
fn loads_no_map(sizes: &[u32], insn: Insn) -> bool
    ensures { result ≡ loads_no_map sizes.now insn }
{
    match insn {
        Insn::LoadImm {
            kind: ImmKind::Map,
            imm,
            ..
        } => count_of_map(sizes, imm).is_none(),
        Insn::LoadImm {
            kind: ImmKind::MapValue,
            imm,
            next_imm,
            ..
        } => !has_byte(count_of_map(sizes, imm), next_imm),
        _ => false,
    }
}

fn is_r10(reg: Reg) -> bool
    ensures { result ≡ (reg == 10) }
{
    reg.number() == 10
}

fn fetches_into_r10(op: AtomicOp, src: Reg) -> bool
    ensures { result ≡ fetches_into_r10 op src }
{
    match op {
        AtomicOp::Fetch(_) | AtomicOp::Xchg => is_r10(src),
        _ => false,
    }
}

/// V11: the instruction writes R10, the frame pointer.
fn writes_r10(insn: Insn) -> bool
    ensures { result ≡ writes_r10 insn }
{
    match insn {
        Insn::Alu { dst, .. } => is_r10(dst),
        Insn::Neg { dst, .. } => is_r10(dst),
        Insn::Movsx { dst, .. } => is_r10(dst),
        Insn::Endian { dst, .. } => is_r10(dst),
        Insn::Load { dst, .. } => is_r10(dst),
        Insn::LoadSx { dst, .. } => is_r10(dst),
        Insn::LoadImm { dst, .. } => is_r10(dst),
        Insn::Atomic { op, src, .. } => fetches_into_r10(op, src),
        _ => false,
    }
}

/// The least of V7 to V11 that an instruction breaks wherever it is.
#[tactic(auto, unfolding(bpf_verify_model::specs::Rules::insn_fault))]
pub fn insn_fault(sizes: &[u32], insn: &Insn) -> Option<Rule>
    ensures { result ≡ insn_fault sizes.now insn.now }
{
    let no_helper = calls_no_helper(*insn);
    let otherwise = calls_otherwise(*insn);
    let outer = loads_outer(*insn);
    let no_map = loads_no_map(sizes, *insn);
    let r10 = writes_r10(*insn);
    if no_helper {
        Some(Rule::UnknownHelper)
    } else if otherwise {
        Some(Rule::CallKind)
    } else if outer {
        Some(Rule::LoadKind)
    } else if no_map {
        Some(Rule::MissingMap)
    } else if r10 {
        Some(Rule::FramePointerWrite)
    } else {
        None
    }
}

fn uses_callbacks(insn: Insn) -> bool
    ensures { result ≡ uses_callbacks insn }
{
    match insn {
        Insn::Call { callee, imm } => matches!(helper_of(callee, imm), Some(Helper::Loop)),
        Insn::LoadImm {
            kind: ImmKind::Code,
            ..
        } => true,
        _ => false,
    }
}

/// V23: a callback calls a loop or names a callback. Main is function 0.
pub fn callback_fault(function: u32, insn: Insn) -> Option<Rule>
    ensures { result ≡ callback_fault function insn }
{
    if function != 0 && uses_callbacks(insn) {
        Some(Rule::NestedCallback)
    } else {
        None
    }
}
