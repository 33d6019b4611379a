//! The replay of a list of events.

ghost use Rattle.std.specs.Prelude.{◌≡◌, None, Ok, Err, IfOk};
ghost use Rattle.bpf_step_model.specs.Run.{Ended};
ghost use Rattle.bpf_verify_sound.specs.Soundness.{OverApproximatesCall};
ghost use Rattle.loop_core_model.specs.{Split.{split_fault}, Outcome.{replayed}};

use crate::error::ReplayError;
use crate::replay::run_events;
use array_maps::Maps;
use bpf_step::LoopCall;
use bpf_verify::Verified;
use loop_core_block::SpeculativeLoop;
use loop_core_gather::{GatherError, LoopOutcome, commit_or_rerun, gather};
use loop_core_model::{Event, ReplayFault, Test, law_of_schedules};
use loop_core_split::Split;
use std::alloc::Global;

/// Replays a list of events on a loop call that main of this program made: its workers do what the list says, on the
/// blocks of this split. Returns the loop's outcome from these maps, which stay as they are. The maps are of the
/// program's sizes, and the split is of the call's iterations.
///
/// A list that is no schedule is refused by its first fault: E1 (`NoSuchWorker`) a worker above 15, E2 (`NotEnabled`)
/// an event that isn't enabled, E3 (`NotEnded`) a list that hasn't ended. `Memory` says nothing of the list.
pub fn replay_loop(
    alloc: Global,
    program: &Verified,
    call: &LoopCall,
    start: &Maps,
    split: &Split,
    events: &[Event],
    test: Test,
) -> Result<LoopOutcome, ReplayError>
    requires known { OverApproximatesCall program.now call.now }
    requires sizes { start.now.sizes ≡ program.now.sizes }
    requires split { split_fault split.now call.now.n ≡ None }
    ensures outcome { IfOk result (λ o. replayed test program.now 4096 call.now start.now.words split.now events.now
        ≡ Ok (Ended (record { verdict = o.verdict; answer = o.answer; words = o.maps.words }))) }
    ensures sizes { IfOk result (λ o. o.maps.sizes ≡ start.now.sizes) }
    ensures fault { (fault : ReplayFault) → result ≡ Err (ReplayError.Fault fault)
        → replayed test program.now 4096 call.now start.now.words split.now events.now ≡ Err fault }
{
    law_of_schedules();
    let of = SpeculativeLoop {
        alloc,
        program,
        call,
        start,
        split,
        test,
    };
    let ran = run_events(&of, events)?;
    match gather(alloc, program, call, start, split, ran, test) {
        Ok(gathered) => Ok(commit_or_rerun(alloc, program, call, start, &gathered, test)?),
        Err(GatherError::Memory) => Err(ReplayError::Memory),
        Err(GatherError::Fault(_)) => unreachable!(),
    }
}
