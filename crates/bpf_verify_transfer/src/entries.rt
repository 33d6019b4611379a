//! The abstract state where a function starts.

ghost use Rattle.std.specs.Prelude.{◌≡◌, ◌≤◌};
ghost use Rattle.bpf_verify_model.specs.States.{known_main_entry};
ghost use Rattle.bpf_verify_model.specs.Flow.{most_iterations, known_index, known_ctx, known_callback_entry};

use bpf_insn_types::{AluOp, MAX_ITERATIONS, Width};
use bpf_verify_model::{AbstractValue, Registers, State, WrittenBytes, reg};
use value_range::{Operation, Range, alu, exact, norm, top};

/// Main as it starts: its argument is any number.
#[tactic(auto, unfolding(bpf_verify_model::specs::States::known_main_entry))]
pub fn main_entry() -> State
    ensures { result ≡ known_main_entry }
{
    State {
        registers: Registers::starting(AbstractValue::Number(top(Width::W64))),
        own: WrittenBytes::none(),
        caller: None,
    }
}

/// At least 1 and at most 8,388,608 iterations, of 32 bits.
fn most_iterations(number: Range) -> u64
    ensures most { result ≡ most_iterations number }
    ensures some { 1 ≤ result }
{
    let words = alu(Operation::Alu(AluOp::Mov), Width::W32, number, number);
    words.hi().min(u64::from(MAX_ITERATIONS)).max(1)
}

/// A callback's index.
fn index_value(value: AbstractValue) -> AbstractValue
    ensures { result ≡ known_index value }
{
    match value {
        AbstractValue::Number(number) => {
            let last = most_iterations(number) - 1;
            AbstractValue::Number(norm(0, last, 0))
        }
        _ => AbstractValue::Unwritten,
    }
}

/// A callback's ctx: an address of main's frame, or 0.
fn ctx_value(value: AbstractValue) -> AbstractValue
    ensures { result ≡ known_ctx value }
{
    match value {
        AbstractValue::Frame(position) => AbstractValue::Ctx(position),
        AbstractValue::Number(_) => AbstractValue::Number(exact(0)),
        _ => AbstractValue::Unwritten,
    }
}

/// A callback as it starts.
#[tactic(auto, unfolding(bpf_verify_model::specs::Flow::known_callback_entry))]
pub(crate) fn callback_entry(state: &State) -> State
    ensures { result ≡ known_callback_entry state.now }
{
    let mut registers = Registers::starting(index_value(state.register(reg(1))));
    registers.set(reg(2), ctx_value(state.register(reg(3))));
    State {
        registers,
        own: WrittenBytes::none(),
        caller: Some(state.own),
    }
}
