//! Both edges of a comparison.

ghost use Rattle.std.specs.Prelude.{◌≡◌};
ghost use Rattle.bpf_verify_model.specs.{States.{known_register}, Flow.{branch_states}};
ghost use Rattle.bpf_verify_model.specs.Flow.{compared_imm, refines, unrefined_branch};
ghost use Rattle.bpf_verify_model.specs.Flow.{number_branch, operand_branch, null_check_branch};

use bpf_insn_types::{Compare, Operand, Reg, Width};
use bpf_verify_model::{AbstractValue, BranchStates, State};
use value_range::{Condition, Range, exact, refine};

/// The number that an immediate is in a comparison.
fn compared_imm(width: Width, imm: i32) -> u64
    ensures { result ≡ compared_imm width imm }
{
    match width {
        Width::W32 => imm.cast_unsigned() as u64,
        Width::W64 => (imm as i64).cast_unsigned(),
    }
}

/// The abstract state where the operands are refined, if a pair of their numbers is left.
fn refines(state: &State, dst: Reg, operand: Operand, pair: Option<(Range, Range)>) -> Option<State>
    ensures { result ≡ refines state.now dst operand pair }
{
    match pair {
        None => None,
        Some((a, b)) => {
            let with_dst = state.with(dst, AbstractValue::Number(a));
            match operand {
                Operand::Imm(_) => Some(with_dst),
                Operand::Reg(reg) => Some(with_dst.with(reg, AbstractValue::Number(b))),
            }
        }
    }
}

/// Both edges are followed with nothing more known.
fn unrefined_branch(state: &State) -> BranchStates
    ensures { result ≡ unrefined_branch state.now }
{
    BranchStates {
        holds: Some(*state),
        fails: Some(*state),
    }
}

/// A comparison of two numbers.
fn number_branch(
    state: &State,
    width: Width,
    compare: Compare,
    dst: &Reg,
    operand: &Operand,
    a: &Range,
    b: &Range,
) -> BranchStates
    ensures { result ≡ number_branch state.now width compare dst.now operand.now a.now b.now }
{
    let holds = refine(Condition::taken(compare), width, *a, *b);
    let fails = refine(Condition::not_taken(compare), width, *a, *b);
    BranchStates {
        holds: refines(state, *dst, *operand, holds),
        fails: refines(state, *dst, *operand, fails),
    }
}

/// A comparison of a number: of a register with itself it says nothing.
fn operand_branch(
    state: &State,
    width: Width,
    compare: Compare,
    dst: Reg,
    operand: Operand,
    a: Range,
) -> BranchStates
    ensures { result ≡ operand_branch state.now width compare dst operand a }
{
    match operand {
        Operand::Imm(imm) => {
            let b = exact(compared_imm(width, imm));
            number_branch(state, width, compare, &dst, &operand, &a, &b)
        }
        Operand::Reg(reg) => match state.register(reg) {
            AbstractValue::Number(b) => {
                if dst.number() == reg.number() {
                    unrefined_branch(state)
                } else {
                    number_branch(state, width, compare, &dst, &operand, &a, &b)
                }
            }
            _ => unrefined_branch(state),
        },
    }
}

/// The null check: null where it is equal, and an address where it isn't.
fn null_check_branch(
    state: &State,
    compare: Compare,
    dst: Reg,
    map: u32,
    offset: Range,
) -> BranchStates
    ensures { result ≡ null_check_branch state.now compare dst map offset }
{
    let null = state.with(dst, AbstractValue::Number(exact(0)));
    let address = state.with(dst, AbstractValue::Area(map, offset));
    match compare {
        Compare::Eq => BranchStates {
            holds: Some(null),
            fails: Some(address),
        },
        _ => BranchStates {
            holds: Some(address),
            fails: Some(null),
        },
    }
}

/// Both edges of a comparison of a register with an operand.
pub(crate) fn branch_states(
    state: &State,
    width: Width,
    compare: Compare,
    dst: Reg,
    operand: Operand,
) -> BranchStates
    ensures { result ≡ branch_states state.now width compare dst operand (known_register state.now dst) }
{
    match state.register(dst) {
        AbstractValue::Number(a) => operand_branch(state, width, compare, dst, operand, a),
        AbstractValue::AreaOrNull(map, offset) => null_check_branch(
            state, compare, dst, map, offset,
        ),
        _ => unrefined_branch(state),
    }
}
