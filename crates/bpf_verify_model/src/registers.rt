//! The eleven registers.

ghost use Rattle.std.specs.Prelude.{◌≡◌, ◌≤◌, length, slice_index_or, slice_set};
ghost use Rattle.bpf_verify_model.specs.declared.abstract_value.AbstractValue.TheVariants.{Unwritten};
ghost use Rattle.bpf_verify_model.specs.States.{starting_registers};

use crate::abstract_value::AbstractValue;
use bpf_insn_types::Reg;
use std::marker::Model;

/// The abstract value of each register.
#[derive(Clone, Copy)]
pub struct Registers {
    values: [AbstractValue; 11],
}

impl Model for Registers {
    ghost use Rattle.std.specs.Prelude.{◌≡◌, List, length};
    ghost use Rattle.bpf_verify_model.specs.declared.abstract_value.AbstractValue.{AbstractValue};

    ghost Value = { List AbstractValue };

    ghost view = { λ r. r.values };

    ghost invariant = { λ r. length r.values ≡ 11 };

    ghost inverse = { λ values. record { values = values } };
}

impl Registers {
    /// A register's value.
    pub fn get(&self, reg: Reg) -> AbstractValue
        ensures { result ≡ slice_index_or self.now reg Unwritten }
    {
        self.values[reg.number() as usize]
    }

    /// Sets the abstract value of a register.
    pub fn set(&mut self, reg: Reg, value: AbstractValue)
        ensures { self.new ≡ slice_set self.old reg value }
    {
        self.values[reg.number() as usize] = value;
    }

    /// No register is written but R1, which has an argument, and R10, the frame pointer.
    pub fn starting(argument: AbstractValue) -> Registers
        ensures { result ≡ starting_registers argument }
    {
        let mut registers = Registers {
            values: [AbstractValue::Unwritten; 11],
        };
        registers.set(reg(1), argument);
        registers.set(reg(10), AbstractValue::Frame(512));
        registers
    }

    /// How many there are.
    pub fn len(&self) -> usize
        ensures length { result ≡ length self.now }
        ensures eleven { result ≡ 11 }
    {
        let values = &self.values;
        values.len()
    }
}

/// The register of a number.
pub fn reg(number: u8) -> Reg
    requires { number ≤ 10 }
    ensures { result ≡ number }
{
    match Reg::new(number) {
        Some(reg) => reg,
        None => unreachable!(),
    }
}
