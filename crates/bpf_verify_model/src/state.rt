//! The abstract state before a slot.

ghost use Rattle.std.specs.Prelude.{◌≡◌};
ghost use Rattle.bpf_verify_model.specs.States.{known_register, with_known};

use crate::abstract_value::AbstractValue;
use crate::registers::Registers;
use crate::written::WrittenBytes;
use bpf_insn_types::Reg;

/// The abstract state before a slot: each register, the written bytes of the own frame, and in a callback
/// those of main's frame at the call.
#[derive(Clone, Copy)]
pub struct State {
    pub registers: Registers,
    pub own: WrittenBytes,
    pub caller: Option<WrittenBytes>,
}

impl State {
    /// The abstract value of a register.
    pub fn register(&self, reg: Reg) -> AbstractValue
        ensures { result ≡ known_register self.now reg }
    {
        self.registers.get(reg)
    }

    /// A register gets another abstract value.
    pub fn set(&mut self, reg: Reg, value: AbstractValue)
        ensures { self.new ≡ with_known self.old reg value }
    {
        self.registers.set(reg, value);
    }

    /// The same, but for the abstract value of a register.
    pub fn with(&self, reg: Reg, value: AbstractValue) -> State
        ensures { result ≡ with_known self.now reg value }
    {
        let mut state = *self;
        state.registers.set(reg, value);
        state
    }
}
