//! Running a loop call.

ghost use Rattle.std.specs.Prelude.{◌≡◌, ◌≢◌, ◌↔◌, Err, IsTrue, IfOk, OnErr};
ghost use Rattle.bpf_verify_sound.specs.Soundness.{OverApproximatesCall};
ghost use Rattle.loop_core_gather.specs.Gathered.{IsOutcome};
ghost use Rattle.spec_run_loop.specs.{Strategies.{IsStrategyUsed, strategy_by}, StrategyPlans.{IsLoopPlan, all_blocks_of}};
ghost use Rattle.loop_core_split.specs.declared.plan.Policy.TheVariants.{Blocks};

use crate::by_blocks::{decided, decision_on};
use crate::cost_model::elements_of;
use crate::decision::LoopAnswer;
use crate::error::RunError;
use crate::job::LoopJob;
use crate::strategy::{Executor, StrategyPlan, choose_strategy};
use crate::summing::run_sums;
use crate::watching::run_watched;
use array_maps::Maps;
use bpf_step::LoopCall;
use bpf_verify::Verified;
use loop_core_block::SpeculativeLoop;
use loop_core_gather::{LoopOutcome, LoopResult};
use loop_core_model::{MAX_WORKERS, Test};
use loop_core_split::{Gate, Split};
use spec_run_workers::Workspace;
use std::alloc::{AllocError, Global};
use std::thread::Threads;

/// Runs a loop call on these maps themselves, which are of the program's sizes, the way that its plan chooses. They are
/// as before where it fails. What the calling thread runs alone is run in the workspace, which may be that of other
/// loop calls. It waits for its threads, and where one can't be started, the others do its share.
pub fn run_by_plan<R: Threads + Sync, G: Gate>(
    rt: &R,
    job: &LoopJob,
    maps: &mut Maps,
    workspace: &mut Workspace,
    gate: &G,
) -> Result<LoopAnswer, AllocError>
    requires sizes { maps.old.sizes ≡ job.now.program.sizes }
    ensures outcome { IfOk result (λ a. IsOutcome job.now.plan.test job.now.program job.now.call maps.old a.verdict
        a.answer maps.new) }
    ensures strategy { IfOk result (λ a. IsStrategyUsed job.now maps.old.words a.strategy) }
    ensures asked { job.now.plan.policy ≡ Blocks → IfOk result (λ a. a.strategy ≡ strategy_by (all_blocks_of job.now)) }
    ensures kept { OnErr result (maps.new ≡ maps.old) }
{
    match choose_strategy(job, elements_of(maps)) {
        StrategyPlan::Sums { of, workers } => run_sums(rt, job.alloc, &of, maps, workers),
        StrategyPlan::Watched { otherwise } => run_watched(
            rt, job, &otherwise, maps, workspace, gate,
        ),
        StrategyPlan::ByBlocks { blocks } => {
            let decision = decision_on(rt, job, &blocks, maps, workspace, gate)?;
            let LoopResult { verdict, answer } = decision.apply(
                job.program,
                job.call,
                maps,
                job.plan.test,
            );
            Ok(LoopAnswer {
                verdict,
                answer,
                strategy: blocks.strategy(),
            })
        }
    }
}

/// A loop call that main of a program made, and how it is run by blocks.
#[derive(Drop)]
pub struct LoopRun<'l> {
    /// Where its blocks, and what it leaves, are kept.
    pub alloc: Global,
    /// The program whose main made the call.
    pub program: &'l Verified,
    /// The call: a callback, and how often it is called.
    pub call: &'l LoopCall,
    /// The maps as they are at the call.
    pub start: &'l Maps,
    /// The blocks of its iterations.
    pub split: &'l Split,
    /// The number of workers, 1 to 16.
    pub workers: u32,
    /// The test by which it passes.
    pub test: Test,
}

/// Whether there are 1 to 16 workers, and the split is of n iterations.
fn is_loop_plan(workers: u32, split: &Split, n: u32) -> bool
    ensures { IsTrue result ↔ IsLoopPlan workers split.now n }
{
    (1..=MAX_WORKERS).contains(&workers) && split.iterations() == n
}

/// Runs a loop call by its workers over all blocks of its split, and does to a copy of the maps what becomes of it.
fn run_on_copy<R: Threads + Sync, G: Gate>(
    rt: &R,
    run: &LoopRun,
    gate: &G,
) -> Result<LoopOutcome, AllocError>
    requires known { OverApproximatesCall run.now.program.now run.now.call.now }
    requires sizes { run.now.start.now.sizes ≡ run.now.program.now.sizes }
    requires plan { IsLoopPlan run.now.workers run.now.split.now run.now.call.now.n }
    ensures { IfOk result (λ o. IsOutcome run.now.test run.now.program.now run.now.call.now run.now.start.now
        o.verdict o.answer o.maps) }
{
    let of = SpeculativeLoop {
        alloc: run.alloc,
        program: run.program,
        call: run.call,
        start: run.start,
        split: run.split,
        test: run.test,
    };
    let executor = Executor::Workers(run.workers);
    let decision = decided(rt, &of, executor, &mut Workspace::new(), gate)?;
    decision.apply_to_copy(run.alloc, run.program, run.call, run.start, run.test)
}

/// Runs a loop call by its workers, each in a thread of its own, over all blocks of its split. What a loop leaves that
/// passes the test is worked out, by several threads where there are several workers and it touched many pages, and
/// stored in a copy of the maps; any other is run in order on one. It waits for its threads, and where one can't be
/// started, the others do its share.
///
/// It fails with `Sizes` (P1) where the maps' sizes differ from the program's; else with `Plan` (P2) where the
/// workers aren't 1 to 16 or the split isn't of the call's iterations; and with `Memory`.
pub fn run_loop<R: Threads + Sync, G: Gate>(
    rt: &R,
    run: &LoopRun,
    gate: &G,
) -> Result<LoopOutcome, RunError>
    requires { OverApproximatesCall run.now.program.now run.now.call.now }
    ensures outcome { IfOk result (λ o. IsOutcome run.now.test run.now.program.now run.now.call.now run.now.start.now
        o.verdict o.answer o.maps) }
    ensures sizes { (result ≡ Err RunError.Sizes) ↔ (run.now.start.now.sizes ≢ run.now.program.now.sizes) }
    ensures plan { (result ≡ Err RunError.Plan) ↔ ((run.now.start.now.sizes ≡ run.now.program.now.sizes)
        × (¬ IsLoopPlan run.now.workers run.now.split.now run.now.call.now.n)) }
{
    if run.start.sizes() != run.program.sizes() {
        return Err(RunError::Sizes);
    }
    if !is_loop_plan(run.workers, run.split, run.call.n()) {
        return Err(RunError::Plan);
    }
    Ok(run_on_copy(rt, run, gate)?)
}
