//! Loops that are run in order, watched.

ghost use Rattle.std.specs.Prelude.{◌≡◌, true, IfOk, IfSome, OnErr};
ghost use Rattle.bpf_step_model.specs.Run.{Ended};
ghost use Rattle.loop_core_model.specs.declared.loop_test.Test.TheVariants as tests;
ghost use Rattle.loop_core_model.specs.Report.{verdict};
ghost use Rattle.loop_core_gather.specs.Gathered.{IsOutcome};
ghost use Rattle.loop_inspector.specs.Independent.{AlwaysPasses};
ghost use Rattle.spec_run_loop.specs.{declared.strategy.BlockPlan.{BlockPlan}};
ghost use Rattle.spec_run_loop.specs.{Strategies.{IsWatchedStrategy}, StrategyPlans.{IsBlockPlan}};

use crate::by_blocks::decision_on;
use crate::cost_model::elements_of;
use crate::decision::{LoopAnswer, carry_out_from};
use crate::job::LoopJob;
use crate::strategy::BlockPlan;
use array_maps::Maps;
use loop_core_gather::{Decision, LoopResult};
use loop_core_model::Verdict;
use loop_core_sequential::{WatchedLoop, in_order, in_order_watched};
use loop_core_split::{Gate, Strategy};
use loop_inspector::{inspect, is_independent};
use spec_run_workers::Workspace;
use std::alloc::AllocError;
use std::thread::Threads;

/// The fewest iterations of a loop that is examined: to ask whether they never conflict takes as long as some hundred of
/// them, and room for the marks of inspected ones takes as long to clear as blocks take for fewer.
const FEWEST_EXAMINED: u32 = 2048;

/// Whether it is known that the iterations of a loop call never conflict, so that it passes by the flow test.
pub(crate) fn never_conflicts(job: &LoopJob) -> Result<bool, AllocError>
    ensures { IfOk result (λ found. found ≡ true → AlwaysPasses job.now.program job.now.call) }
{
    if job.call.n() < FEWEST_EXAMINED {
        return Ok(false);
    }
    is_independent(job.alloc, job.program, job.call)
}

/// The verdict on a loop call from these maps by its inspected iterations, if it is known so.
fn inspected(job: &LoopJob, maps: &Maps) -> Result<Option<Verdict>, AllocError>
    requires sizes { maps.now.sizes ≡ job.now.program.sizes }
    ensures { IfOk result (λ found. IfSome found (λ v. verdict tests.Flow job.now.program 4096 job.now.call
        maps.now.words ≡ Ended v)) }
{
    if job.call.n() < FEWEST_EXAMINED {
        return Ok(None);
    }
    inspect(job.alloc, job.program, job.call, maps)
}

/// Runs a loop call in order on these maps, which are of the program's sizes: its iterations never conflict, and it
/// passes by the flow test.
pub(crate) fn run_independent(job: &LoopJob, maps: &mut Maps) -> LoopAnswer
    requires sizes { maps.old.sizes ≡ job.now.program.sizes }
    requires passes { AlwaysPasses job.now.program job.now.call }
    ensures outcome { IsOutcome tests.Flow job.now.program job.now.call maps.old result.verdict result.answer
        maps.new }
    ensures strategy { (otherwise : BlockPlan) → IsWatchedStrategy job.now maps.old.words otherwise result.strategy }
{
    // For the proof: the maps have as many words as their sizes add up to, each below 2^64.
    let _sizes = maps.sizes();
    let _words = maps.words();
    let answer = in_order(job.program, job.call, maps);
    LoopAnswer::passed(answer, Strategy::Watched)
}

/// Runs a loop call in order on these maps, which are of the program's sizes, and watches it, unless its iterations
/// never conflict: where none reads what an earlier one wrote, it passes by the flow test, and is done. Else its verdict
/// is that of its inspected iterations, or of blocks, on the maps as they were, and it continues in order from the
/// iteration that did.
pub(crate) fn run_watched<R: Threads + Sync, G: Gate>(
    rt: &R,
    job: &LoopJob,
    otherwise: &BlockPlan,
    maps: &mut Maps,
    workspace: &mut Workspace,
    gate: &G,
) -> Result<LoopAnswer, AllocError>
    requires sizes { maps.old.sizes ≡ job.now.program.sizes }
    requires flow { job.now.plan.test ≡ tests.Flow }
    requires plan { IsBlockPlan job.now.call.n otherwise.now }
    ensures outcome { IfOk result (λ a. IsOutcome job.now.plan.test job.now.program job.now.call maps.old a.verdict
        a.answer maps.new) }
    ensures strategy { IfOk result (λ a. IsWatchedStrategy job.now maps.old.words otherwise.now a.strategy) }
    ensures kept { OnErr result (maps.new ≡ maps.old) }
{
    if never_conflicts(job)? {
        return Ok(run_independent(job, maps));
    }
    // For the proof: the maps have as many words as their sizes add up to, each below 2^64.
    let _sizes = maps.sizes();
    let _words = maps.words();
    let mut log = workspace.take_log(job.alloc, elements_of(maps))?;
    let progress = match in_order_watched(job.program, job.call, &mut log, maps) {
        WatchedLoop::Passed(answer) => {
            workspace.keep_log(log);
            return Ok(LoopAnswer::passed(answer, Strategy::Watched));
        }
        WatchedLoop::Dependent(progress) => progress,
    };
    let decision = match inspected(job, maps)? {
        Some(verdict) => Decision::Discard { verdict },
        None => decision_on(rt, job, otherwise, maps, workspace, gate)?,
    };
    let LoopResult { verdict, answer } = carry_out_from(decision, job, progress, &mut log, maps);
    workspace.keep_log(log);
    Ok(LoopAnswer {
        verdict,
        answer,
        strategy: otherwise.strategy(),
    })
}
