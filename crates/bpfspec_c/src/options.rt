//! What is asked of facts, as C gives it.

ghost use Rattle.std.specs.Prelude.{◌≡◌};
ghost use Rattle.bpfspec_c.specs.Options.{ask_of};

use bpfspec_serve::{Ask, Test, UnitForm};

/// The options of facts. Zeroes ask for what `facts` prints without any.
#[repr(C)]
#[derive(Clone, Copy)]
pub struct Options {
    /// Main's argument, where it runs.
    pub argument: u64,
    /// Whether the unit is in hex form.
    pub hex: bool,
    /// Whether its loops conflict by the test `lrpd`, and not by `flow`.
    pub lrpd: bool,
    /// Whether the abstract values of an accepted unit are wanted, and not of a refused one alone.
    pub states: bool,
    /// Whether up to 64 elements that conflict are wanted of each loop, and not the least alone.
    pub all: bool,
    /// Whether it is wanted which elements the iterations of the first loop that conflicts access.
    pub grid: bool,
}

/// What options ask for.
pub(crate) fn ask_of(options: &Options) -> Ask
    ensures { result ≡ ask_of options.now }
{
    Ask {
        form: if options.hex {
            UnitForm::Hex
        } else {
            UnitForm::Assembler
        },
        arg: options.argument,
        test: if options.lrpd { Test::Lrpd } else { Test::Flow },
        states: options.states,
        all: options.all,
        grid: options.grid,
    }
}
