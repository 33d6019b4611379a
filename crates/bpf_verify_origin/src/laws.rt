//! What an inspection says of a program holds on each run of the machine up to its first fault: laws, for proofs alone.

ghost use Rattle.bpf_verify_origin.specs.{Runs.{EachStateHolds}, RunSources.{EachSourceHolds}, RunSteps.{StepsAreRuns}};

use bpf_insn_types::results_fit;

/// The law of the steps of runs: if a run reaches a machine, and by the machine's definition steps lead from there to
/// another, over words of the maps below 2^64, the run goes on to that one, and the words stay below 2^64.
pub fn law_of_run_steps()
    ensures { StepsAreRuns }
{
    results_fit();
}

/// The law of states, of programs that are refused too: a run that passed only slots before the first fault is
/// within the abstract states. The one before the slot that the run reaches contains its registers and its frames,
/// and so does the one on the edges by which it came there. A run starts as main, at any argument, and
/// goes on at each step, whatever word is at the element that it asks for and whatever a loop answers, or into
/// an iteration of the callback that a loop call names.
pub fn law_of_states()
    ensures { EachStateHolds }
{
    results_fit();
}

/// The law of sources, on the same runs: if the source of a register's value is an instruction, the run passed it,
/// it wrote the register, and no later step wrote the register or changed its value. If the source is the call that
/// entered a callback, the start of main, or a slot at which edges meet, no step since then did.
pub fn law_of_sources()
    ensures { EachSourceHolds }
{
    results_fit();
}
