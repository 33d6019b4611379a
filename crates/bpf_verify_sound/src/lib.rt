//! An accepted program's machine is never stuck. These are definitions and laws alone: nothing runs here.
#![tactic(auto)]

ghost use Rattle.bpf_verify_sound.specs.Soundness.{EntryIsOverApproximated, ProgressAndPreservation, MachinesStaySound};
ghost use Rattle.bpf_verify_sound.specs.Soundness.{EachStateIsWellFormed, NoRunIsStuck, EachRunEnds, CallbacksExit};
ghost use Rattle.bpf_verify_sound.specs.Soundness.{EachCallbackStartsItsFunction, EachCountIsSmall, EachProgramEnds};

use bpf_insn_types::results_fit;

/// The law of one step: the abstract state before a slot of an accepted program contains the machine there.
/// Main starts so, at any argument. Where it is so there is a step, and it is so of each machine that the
/// step leads to, whatever word is at the element that it asks for, whatever a loop answers, and at
/// whatever index below the number of iterations a callback starts. Each step of any program keeps words
/// below 2^64 in registers, frames and maps. The abstract state before a slot is of eleven registers and 512
/// bytes, and its ranges are spans.
pub fn law_of_steps()
    ensures entry { EntryIsOverApproximated }
    ensures step { ProgressAndPreservation }
    ensures machines { MachinesStaySound }
    ensures states { EachStateIsWellFormed }
{
    results_fit();
}

/// The law of runs: no run of an accepted program is stuck at any bound, over maps of the sizes, and from
/// where it pauses at a turn it goes on so. Each ends within the most instructions from its slot on, with
/// what may still come after the turn; a callback's ends at an exit alone. From the start of a function
/// that is the count that the verifier reports: a callback starts where its function does, and no count is
/// more than the program's slots.
pub fn law_of_accepted_runs()
    ensures stuck { NoRunIsStuck }
    ensures ends { EachRunEnds }
    ensures callbacks { CallbacksExit }
    ensures starts { EachCallbackStartsItsFunction }
    ensures counts { EachCountIsSmall }
{
    results_fit();
}

/// The law of programs: main's run up to its first turn ends within main's count, and each iteration of a
/// loop call that main can reach within its callback's, where the bound isn't less than that count. So each
/// such loop in order ends, with an answer of at most its number of iterations. At a bound that isn't less
/// than the program's slots the whole program in order ends; each loop call that it made was within the
/// abstract states. At any bound it isn't stuck. Each leaves words of the maps again.
pub fn law_of_accepted_programs()
    ensures { EachProgramEnds }
{
    results_fit();
}
