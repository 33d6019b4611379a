//! A handle.

ghost use Rattle.std.specs.{Prelude.{◌≡◌, is_some}, Option.{MatchOption}};
ghost use Rattle.std.specs.declared.option.Option.TheVariants.{None, Some};

use crate::held::Held;
use crate::loose::Loose;
use bpfspec_machine::Machine;
use std::alloc::Global;
use std::mem::replace;

/// A machine, or none. Zeroes make none.
#[repr(C)]
pub struct Loaded {
    loaded: bool,
    pub(crate) held: Held,
    ghost tied: { loaded ≡ is_some held.machine },
}

impl Loaded {
    /// Whether it holds a machine.
    pub(crate) fn is_loaded(&self) -> bool
        ensures { result ≡ is_some self.now.held.machine }
    {
        self.loaded
    }

    /// Takes the machine out.
    pub(crate) fn take(&mut self, alloc: Global) -> Option<Box<Machine>>
        ensures taken { MatchOption result (self.old.held.machine ≡ None) (λ machine. self.old.held.machine ≡ Some machine.value) }
        ensures left { self.new.held.machine ≡ None }
    {
        if !self.loaded {
            return None;
        }
        let old = replace(
            self,
            Loaded {
                loaded: false,
                held: Held::none(),
            },
        );
        let Loaded { loaded: _, held } = old;
        Some(held.into_loose(alloc).into_box())
    }

    /// Puts a machine in.
    pub(crate) fn put(&mut self, machine: Box<Machine>)
        requires { self.old.held.machine ≡ None }
        ensures { self.new.held.machine ≡ Some machine.value }
    {
        let old = replace(
            self,
            Loaded {
                loaded: true,
                held: Held::of(Loose::of(machine)),
            },
        );
        let Loaded { loaded: _, held } = old;
        held.end();
    }

    /// Frees the machine.
    pub(crate) fn clear(&mut self, alloc: Global)
        ensures { self.new.held.machine ≡ None }
    {
        drop(self.take(alloc));
    }
}
