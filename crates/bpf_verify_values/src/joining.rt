//! The join of two abstract states.

ghost use Rattle.std.specs.Prelude.{◌≡◌, ◌==◌, if◌then◌else◌, length};
ghost use Rattle.bpf_verify_model.specs.declared.abstract_value.AbstractValue.TheVariants.{Unwritten};
ghost use Rattle.bpf_verify_model.specs.States.{joined_values, joined_registers, joined_callers, joined_states};

use bpf_verify_model::{AbstractValue, Registers, State, WrittenBytes, reg};
use value_range::join;

/// The join of a register's abstract values.
pub(crate) fn join_values(a: AbstractValue, b: AbstractValue) -> AbstractValue
    ensures { result ≡ joined_values a b }
{
    match a {
        AbstractValue::Unwritten => AbstractValue::Unwritten,
        AbstractValue::Number(range) => match b {
            AbstractValue::Number(other) => AbstractValue::Number(join(range, other)),
            _ => AbstractValue::Unwritten,
        },
        AbstractValue::Frame(position) => match b {
            AbstractValue::Frame(other) => same(position, other, a),
            _ => AbstractValue::Unwritten,
        },
        AbstractValue::Ctx(position) => match b {
            AbstractValue::Ctx(other) => same(position, other, a),
            _ => AbstractValue::Unwritten,
        },
        AbstractValue::Map(map) => match b {
            AbstractValue::Map(other) => same(map, other, a),
            _ => AbstractValue::Unwritten,
        },
        AbstractValue::Area(map, range) => match b {
            AbstractValue::Area(other, r) => same(
                map,
                other,
                AbstractValue::Area(map, join(range, r)),
            ),
            AbstractValue::AreaOrNull(other, r) => same(
                map,
                other,
                AbstractValue::AreaOrNull(map, join(range, r)),
            ),
            _ => AbstractValue::Unwritten,
        },
        AbstractValue::AreaOrNull(map, range) => match b {
            AbstractValue::Area(other, r) | AbstractValue::AreaOrNull(other, r) => {
                same(map, other, AbstractValue::AreaOrNull(map, join(range, r)))
            }
            _ => AbstractValue::Unwritten,
        },
        AbstractValue::Code(start) => match b {
            AbstractValue::Code(other) => same(start, other, a),
            _ => AbstractValue::Unwritten,
        },
    }
}

/// A value, where two constants are equal.
fn same(a: u32, b: u32, value: AbstractValue) -> AbstractValue
    ensures { result ≡ if a == b then value else Unwritten }
{
    if a == b {
        value
    } else {
        AbstractValue::Unwritten
    }
}

/// Keeps the abstract value of each register in others too.
fn join_registers(registers: &mut Registers, others: &Registers)
    ensures { registers.new ≡ joined_registers registers.old others.now }
{
    for number in 0..registers.len().min(others.len()) {
        let reg = reg(number as u8);
        registers.set(reg, join_values(registers.get(reg), others.get(reg)));
    }
}

/// The bytes of main's frame that are written on both edges.
fn join_callers(
    written: Option<WrittenBytes>,
    others: &Option<WrittenBytes>,
) -> Option<WrittenBytes>
    ensures { result ≡ joined_callers written others.now }
{
    let (Some(mut written), Some(others)) = (written, others) else {
        return None;
    };
    written.join(others);
    Some(written)
}

/// Keeps the join with another state.
#[tactic(auto, unfolding(bpf_verify_model::specs::States::joined_states))]
pub fn join_states(state: &mut State, other: &State)
    ensures { state.new ≡ joined_states state.old other.now }
{
    join_registers(&mut state.registers, &other.registers);
    state.own.join(&other.own);
    state.caller = join_callers(state.caller, &other.caller);
}
