//! The choice of a strategy.

ghost use Rattle.std.specs.Prelude.{◌≡◌, ◌<◌, ◌≤◌};
ghost use Rattle.spec_run_loop.specs.Strategies.{strategy_by};
ghost use Rattle.spec_run_loop.specs.StrategyPlans.{IsBlockPlan, IsCrewFor, IsStrategyOf, IsCheapestStrategy, MayGo};
ghost use Rattle.spec_run_loop.specs.StrategyPlans.{all_blocks_of, profitable_blocks};
ghost use Rattle.loop_core_model.specs.Split.{even_bounds};
ghost use Rattle.loop_core_split.specs.declared.plan.Policy.TheVariants as policies;

use crate::cost_model::{
    copies_cost_more, sum_workers, useful_blocks, useful_workers, work_by_blocks,
};
use crate::job::LoopJob;
use crate::reduction_loop::ReductionLoop;
use loop_core_model::Test;
use loop_core_split::{BlocksReason, Policy, Split, Strategy};

/// Who runs the blocks of a loop.
#[derive(Clone, Copy)]
pub(crate) enum Executor {
    /// The calling thread alone, which runs the one block there is in a workspace.
    Caller,
    /// This many workers, 1 to 16, each in a thread of its own where one can be started.
    Workers(u32),
}

/// How a loop is run by blocks.
#[derive(Drop)]
pub(crate) struct BlockPlan {
    /// The blocks of its iterations.
    pub(crate) split: Split,
    /// Who runs them.
    pub(crate) executor: Executor,
    /// Why they are run.
    pub(crate) why: BlocksReason,
}

impl BlockPlan {
    /// Which way a loop goes that is run so.
    pub(crate) fn strategy(&self) -> Strategy
        ensures { result ≡ strategy_by self.now }
    {
        let workers = match self.executor {
            Executor::Caller => 1,
            Executor::Workers(workers) => workers,
        };
        Strategy::Blocks {
            blocks: self.split.blocks(),
            workers,
            why: self.why,
        }
    }
}

/// What is planned for a loop: the strategies, in the order in which they are tried.
#[derive(Drop)]
pub(crate) enum StrategyPlan<'l> {
    /// Its iterations do nothing but reduce elements by one operator: even shares of them are added up, by this many
    /// workers, 1 to 16. It needs no marks and no copies.
    Sums { of: ReductionLoop<'l>, workers: u32 },
    /// In order on the maps, watched. Where an iteration reads what an earlier one wrote, blocks give its verdict.
    Watched { otherwise: BlockPlan },
    /// By blocks on private copies, which are judged, and committed or discarded.
    ByBlocks { blocks: BlockPlan },
}

/// This many even blocks of a loop, 1 to 64, and who runs them: the calling thread only one.
#[tactic(auto, using(crate::proofs::EvenLaws::even_is))]
fn even_blocks(job: &LoopJob, blocks: u32, executor: Executor, why: BlocksReason) -> BlockPlan
    requires some { 0 < blocks }
    requires few { blocks ≤ 64 }
    requires executor { IsCrewFor (even_bounds job.now.call.n blocks) executor }
    ensures is { result ≡ record { split = even_bounds job.now.call.n blocks; executor = executor; why = why } }
    ensures plan { IsBlockPlan job.now.call.n result }
{
    match Split::even(job.call.n(), blocks) {
        Ok(split) => BlockPlan {
            split,
            executor,
            why,
        },
        Err(_) => unreachable!(),
    }
}

/// As many blocks as are worth it, over this many elements, for the workers that they keep busy: one in the calling
/// thread where that is one worker.
#[tactic(auto, using(crate::proofs::CostLaws::pays_alone, crate::proofs::CostLaws::pays_together))]
fn profitable_blocks(job: &LoopJob, elements: u32, workers: u32, why: BlocksReason) -> BlockPlan
    requires some { 0 < workers }
    requires few { workers ≤ 16 }
    ensures is { result ≡ profitable_blocks job.now elements workers why }
    ensures plan { IsBlockPlan job.now.call.n result }
{
    if workers == 1 {
        return even_blocks(job, 1, Executor::Caller, why);
    }
    let blocks = useful_blocks(work_by_blocks(job), elements, job.plan.blocks, workers);
    even_blocks(job, blocks, Executor::Workers(workers), why)
}

/// The way of a loop that pays, over this many elements.
fn cheapest_strategy<'l>(job: &LoopJob<'l>, elements: u32) -> StrategyPlan<'l>
    ensures may { MayGo job.now result }
    ensures way { IsCheapestStrategy job.now elements result }
{
    if let Some(of) = ReductionLoop::of(job.program, job.call) {
        let workers = sum_workers(job, elements);
        return StrategyPlan::Sums { of, workers };
    }
    let workers = useful_workers(work_by_blocks(job), elements, job.plan);
    match job.plan.test {
        Test::Flow if copies_cost_more(job, workers) => StrategyPlan::Watched {
            otherwise: profitable_blocks(job, elements, workers, BlocksReason::ReadsWritten),
        },
        Test::Flow => StrategyPlan::ByBlocks {
            blocks: profitable_blocks(job, elements, workers, BlocksReason::Work),
        },
        Test::Lrpd => StrategyPlan::ByBlocks {
            blocks: profitable_blocks(job, elements, workers, BlocksReason::Lrpd),
        },
    }
}

/// The way that a loop goes by its plan, over this many elements.
pub(crate) fn choose_strategy<'l>(job: &LoopJob<'l>, elements: u32) -> StrategyPlan<'l>
    ensures may { MayGo job.now result }
    ensures way { IsStrategyOf job.now elements result }
    ensures asked { job.now.plan.policy ≡ policies.Blocks → result ≡ StrategyPlan.ByBlocks (all_blocks_of job.now) }
{
    match job.plan.policy {
        Policy::Pays => cheapest_strategy(job, elements),
        Policy::Blocks => StrategyPlan::ByBlocks {
            blocks: even_blocks(
                job,
                job.plan.blocks,
                Executor::Workers(job.plan.workers),
                BlocksReason::Asked,
            ),
        },
    }
}
