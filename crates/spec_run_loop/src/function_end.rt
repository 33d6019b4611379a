//! Where functions end.

ghost use Rattle.std.specs.Prelude.{◌≡◌};
ghost use Rattle.bpf_insn_types.specs.Program.{slot_count};
ghost use Rattle.spec_run_loop.specs.SumLoops.{function_end};

use bpf_verify::Verified;

/// The slot after the last one of the function in which a slot lies: where the next function starts, or the number of
/// the program's slots.
pub(crate) fn function_end(program: &Verified, slot: u32, slots: u32) -> u32
    requires { slots ≡ slot_count program.now.insns }
    ensures { result ≡ function_end program.now slot }
{
    for function in 1..=program.callbacks() {
        let next = program.start(function);
        if slot < next {
            return next;
        }
    }
    slots
}
