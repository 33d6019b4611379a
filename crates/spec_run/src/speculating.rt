//! Running a program whose loops may run in parallel.

ghost use Rattle.std.specs.Prelude.{◌≡◌, ◌≢◌, ◌↔◌, Err, IfOk};
ghost use Rattle.bpf_verify_sound.specs.Soundness.{OverApproximatesCall};
ghost use Rattle.loop_core_gather.specs.Gathered.{IsOutcome};
ghost use Rattle.spec_run.specs.AsInOrder.{RunsAsInOrder};
ghost use Rattle.loop_core_split.specs.Plans.{IsPlan};

use crate::by_plan::run_program;
use crate::freed_memory::keep_freed_memory;
use crate::observing::{Observer, Unobserved};
use array_maps::Maps;
use bpf_step::LoopCall;
use bpf_verify::Verified;
use loop_core_sequential::law_of_filled_calls;
use loop_core_split::{Gate, Plan};
use spec_run_loop::{LoopAnswer, LoopJob, RunError, Workspace, run_by_plan};
use spec_run_main::Report;
use std::alloc::{AllocError, Global};
use std::thread::Threads;

/// Runs the program on the maps, its argument in R1. Each loop goes the way that the plan chooses: as it pays, or by
/// blocks, which its workers run at once; where the loop passes the test, what they left is committed, and else it is
/// run in order. All of it runs on a copy, which takes the maps' place at the end. It waits for its threads; where one
/// can't be started, the others do its share. A gate may hold them for a while, and changes nothing else. No iteration
/// is stuck, speculative ones included, and each ends within the count that the verifier reports.
///
/// It fails with `Sizes` (P1) where the maps' sizes differ from the program's; else with `Plan` (P2) where the workers
/// aren't 1 to 16 or the blocks not 1 to 64; else only with `Memory`. The maps are as before then.
pub fn run<R: Threads + Sync, G: Gate>(
    rt: &R,
    alloc: Global,
    program: &Verified,
    maps: &mut Maps,
    argument: u64,
    plan: &Plan,
    gate: &G,
) -> Result<Report, RunError>
    ensures headline { RunsAsInOrder program.now argument plan.now maps.old maps.new result }
    ensures sizes { (result ≡ Err RunError.Sizes) ↔ (maps.old.sizes ≢ program.now.sizes) }
    ensures plan { (result ≡ Err RunError.Plan) ↔ ((maps.old.sizes ≡ program.now.sizes) × (¬ IsPlan plan.now)) }
{
    run_observed(
        rt,
        alloc,
        program,
        maps,
        argument,
        plan,
        gate,
        &mut Unobserved,
    )
}

/// Runs the program as `run` does, and notifies an observer of the program and of its loop calls, from the calling
/// thread.
pub fn run_observed<R: Threads + Sync, G: Gate, O: Observer>(
    rt: &R,
    alloc: Global,
    program: &Verified,
    maps: &mut Maps,
    argument: u64,
    plan: &Plan,
    gate: &G,
    observer: &mut O,
) -> Result<Report, RunError>
    ensures headline { RunsAsInOrder program.now argument plan.now maps.old maps.new result }
    ensures sizes { (result ≡ Err RunError.Sizes) ↔ (maps.old.sizes ≢ program.now.sizes) }
    ensures plan { (result ≡ Err RunError.Plan) ↔ ((maps.old.sizes ≡ program.now.sizes) × (¬ IsPlan plan.now)) }
{
    if maps.sizes() != program.sizes() {
        return Err(RunError::Sizes);
    }
    if !plan.is_within_limits() {
        return Err(RunError::Plan);
    }
    keep_freed_memory(alloc);
    let mut left = maps.try_copy(alloc)?;
    law_of_filled_calls();
    // For the proof: the program is accepted.
    let _unit = program.unit();
    let run_call = |call: &LoopCall, maps: &mut Maps, workspace: &mut Workspace| -> Result<
        LoopAnswer,
        AllocError,
    >
        requires { IsPlan plan.now × OverApproximatesCall program.now call.now × (maps.old.sizes ≡ program.now.sizes) }
        ensures { IfOk result (λ a. IsOutcome plan.entry.now.test program.entry.now call.now maps.old a.verdict a.answer
            maps.new) }
    {
        let job = LoopJob {
            alloc,
            program,
            call,
            plan,
        };
        run_by_plan(rt, &job, maps, workspace, gate)
    };
    let report = run_program(
        alloc, program, &mut left, argument, plan.test, &run_call, observer,
    )?;
    *maps = left;
    Ok(report)
}
