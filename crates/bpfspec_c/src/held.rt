//! What a handle holds.

ghost use Rattle.std.specs.{Prelude.{◌≡◌, true, is_some}, declared.option.Option.{Option, TheVariants.{None, Some}}};
ghost use Rattle.std.specs.Coded.{coded_option};
ghost use Rattle.bpfspec_machine.specs.{Machines.{MachineState}, contracts.machine.Machine.{the_row as machine_row}};
ghost use Rattle.bpfspec_c.specs.Holding.{holds};

use crate::loose::Loose;
use bpfspec_machine::Machine;
use std::alloc::Global;
use std::marker::Model;
use std::ptr::null_mut;

/// An owning pointer to a machine, or none.
#[repr(C)]
pub struct Held {
    at: *mut u8,
    pub ghost machine: { Option MachineState } by { coded_option machine_row.coded },
}

impl Model for Held {
    ghost also_owns = { λ h. holds machine_row h.at h.machine };
}

/// It may go to another thread, as the machine may.
unsafe impl Send for Held {}

impl Held {
    /// None.
    pub(crate) fn none() -> Held
        ensures { result.machine ≡ None }
    {
        Held { at: null_mut() }
    }

    /// Holds a machine.
    pub(crate) fn of(loose: Loose<Machine, Global>) -> Held
        ensures { result.machine ≡ Some loose.value }
    {
        let Loose { at, alloc: _ } = loose;
        Held { at: at as *mut u8 }
    }

    /// Gives the machine back.
    pub(crate) fn into_loose(self, alloc: Global) -> Loose<Machine, Global>
        requires { is_some self.machine ≡ true }
        ensures { self.machine ≡ Some result.value }
    {
        let Held { at } = self;
        Loose {
            at: at as *mut Machine,
            alloc,
        }
    }

    /// The end of a handle that holds none.
    pub(crate) fn end(self)
        requires { self.machine ≡ None }
    {
        let Held { at: _ } = self;
    }
}
