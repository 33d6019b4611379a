//! The machine: what a program means, step by step, and its loops in order. These are definitions and
//! laws, and what a refused loop call asked for: nothing runs here.
#![tactic(auto)]

ghost use Rattle.bpf_step_model.specs.{Atomics.{AtomicsAgree}, Bounds.{GreaterBoundAgrees}, LoopRows.{LoopRows}};
ghost use Rattle.bpf_step_model.specs.{MapRows.{MapRows}, ProgramRows.{ProgramRows}, StepRows.{StepRows}};
ghost use Rattle.bpf_step_model.specs.Steps.{RunIsListOfStates, RunIsStuck};

mod refused_call;

pub use refused_call::RefusedCall;

/// The definitions give what programs without loops return: arithmetic at its corners, lookups, and
/// reads of what is unwritten, which are stuck.
pub fn worked_programs()
    ensures { ProgramRows }
{}

/// The definitions give what loops in order answer and leave: a carried value, the last writer, mixed
/// operators, a break, a break that never comes, refused calls, ctx, and two loops in turn.
pub fn worked_loops()
    ensures { LoopRows }
{}

/// The definitions give what steps do at their edges, and where there is none: atomic operations,
/// accesses, addresses, jumps, calls and callbacks.
pub fn worked_steps()
    ensures { StepRows }
{}

/// The definitions give what accesses of maps do: elements of two maps, and halves of elements, each
/// with what it reads, writes or reduces.
pub fn worked_maps()
    ensures { MapRows }
{}

/// The law of runs: a run that ends within its bound is a list of states from its entry, each the
/// step of the one before, and its length is the number of its instructions; and each such list of
/// states is a run. It is stuck exactly where fewer steps than its bound lead to a state that has none.
pub fn law_of_runs()
    ensures ended { RunIsListOfStates }
    ensures stuck { RunIsStuck }
{}

/// The law of bounds: with a greater bound what ended ends the same way, and what was stuck is stuck.
pub fn law_of_bounds()
    ensures { GreaterBoundAgrees }
{}

/// The law of atomic operations: on a frame and on a part of a map's element they apply the same
/// operator, tell the same register the same number, and leave the other half of the element alone.
pub fn law_of_atomics()
    ensures { AtomicsAgree }
{}
