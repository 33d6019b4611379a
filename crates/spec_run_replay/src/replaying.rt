//! Replaying the first valid loop call of a program.

ghost use Rattle.std.specs.Prelude.{◌≡◌, IfOk};
ghost use Rattle.bpf_step_model.specs.ProgramInOrder.{program_in_order};
ghost use Rattle.spec_run_main.specs.Reports.{EndsWithItsLoops};
ghost use Rattle.spec_run_replay.specs.ProgramReplay.{ReplaysFrom, ReplaysUnlessMemory};

use crate::first_loop::first_loop;
use array_maps::Maps;
use bpf_verify::Verified;
use loop_core_model::{Event, LoopReport, ReplayFault, Test};
use loop_core_replay::{ReplayError, replay_loop};
use loop_core_sequential::law_of_filled_calls;
use loop_core_split::{Split, SplitError};
use std::alloc::Global;
use thiserror::Error;

/// A loop that was replayed.
#[derive(Drop)]
pub struct Replayed {
    /// Its number among the loop calls that main made, refused ones included, from 0.
    pub number: usize,
    /// Its line in the report.
    pub report: LoopReport,
    /// The maps after it.
    pub maps: Maps,
}

/// Why there is no loop to replay, or why it can't be done so.
#[derive(Clone, Copy, Debug, Error)]
pub enum ReplayRefusal {
    /// Main makes no valid loop call.
    #[error("main makes no valid loop call")]
    NoLoop,
    /// S1 to S3: the bounds don't split its iterations.
    #[error("the bounds don't split the loop's iterations: {0:?}")]
    Split(SplitError),
    /// E1 to E3: the events are no schedule of it.
    #[error("{0}")]
    Schedule(ReplayFault),
}

/// Why nothing was replayed.
#[derive(Debug, Drop, Error)]
pub enum NoReplay {
    /// It is refused.
    #[error("{0}")]
    Refused(ReplayRefusal),
    /// There was no memory.
    #[error("out of memory")]
    Memory,
}

/// Runs the program in order on the maps, its argument in R1, up to its first valid loop call; and replays
/// that loop with these bounds of blocks and these events, judged by the test. The maps are of the
/// program's sizes.
///
/// It is refused with `NoLoop` where there is no such call, with `Split` where the bounds don't split its
/// iterations, and with `Schedule` where the events are no schedule of it: the first of these that applies. It
/// fails with `Memory` too. No iteration is stuck, and each ends within the count that the verifier reports.
pub fn replay(
    alloc: Global,
    program: &Verified,
    maps: Maps,
    argument: u64,
    bounds: Vec<u32>,
    events: &[Event],
    test: Test,
) -> Result<Replayed, NoReplay>
    requires sizes { maps.sizes ≡ program.now.sizes }
    ensures replayed { ReplaysUnlessMemory (ReplaysFrom test program.now argument maps.words bounds.items events.now)
        result }
    ensures sizes { IfOk result (λ r. r.maps.sizes ≡ program.now.sizes) }
    ensures ends { EndsWithItsLoops program.now (program_in_order program.now 4096 argument maps.words) }
{
    let mut maps = maps;
    let Some(first) = first_loop(program, &mut maps, argument) else {
        return Err(NoReplay::Refused(ReplayRefusal::NoLoop));
    };
    let split = match Split::of(bounds, first.call.n()) {
        Ok(split) => split,
        Err(fault) => return Err(NoReplay::Refused(ReplayRefusal::Split(fault))),
    };
    law_of_filled_calls();
    // For the proof: the program is accepted.
    let _unit = program.unit();
    match replay_loop(alloc, program, &first.call, &maps, &split, events, test) {
        Ok(outcome) => Ok(Replayed {
            number: first.number,
            report: LoopReport {
                slot: first.call.slot(),
                answer: i64::from(outcome.answer),
                verdict: outcome.verdict,
            },
            maps: outcome.maps,
        }),
        Err(ReplayError::Fault(fault)) => Err(NoReplay::Refused(ReplayRefusal::Schedule(fault))),
        Err(ReplayError::Memory) => Err(NoReplay::Memory),
    }
}
