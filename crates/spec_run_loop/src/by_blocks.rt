//! A loop that is run by blocks.

ghost use Rattle.std.specs.Prelude.{◌≡◌, ◌<◌, ◌≤◌, All, map, IfOk};
ghost use Rattle.loop_core_block.specs.{LoopBlocks.{RecordsRunOf}, Shown.{shown}};
ghost use Rattle.loop_core_gather.specs.{Decisions.{IsDecision}, Gathered.{HasOutcome}, Pages.{AreLeft}};
ghost use Rattle.spec_run_loop.specs.StrategyPlans.{IsBlockPlan, IsCrewFor};
ghost use Rattle.spec_run_workers.specs.Workers.{AreFaultless};

use crate::job::LoopJob;
use crate::strategy::{BlockPlan, Executor};
use array_maps::Maps;
use loop_board::Board;
use loop_core_block::{Block, SpeculativeLoop};
use loop_core_gather::{Decision, GatherError, Gathered, LeftPage, gather};
use loop_core_model::Verdict;
use loop_core_split::Gate;
use spec_run_workers::{Workspace, law_of_workers, run_alone, run_workers};
use std::alloc::AllocError;
use std::thread::Threads;

/// Gathers the blocks of a loop, all of which are there.
fn gather_all<'a>(
    of: &SpeculativeLoop<'_, 'a>,
    blocks: Vec<Block<'a>>,
) -> Result<Gathered<'a>, AllocError>
    requires ran { All (λ b. RecordsRunOf of.now (shown b)) blocks.items }
    requires faultless { AreFaultless of.now (map shown blocks.items) }
    ensures { IfOk result (HasOutcome of.now.test of.now.program of.now.call of.now.start.words) }
{
    match gather(
        of.alloc, of.program, of.call, of.start, of.split, blocks, of.test,
    ) {
        Ok(gathered) => Ok(gathered),
        Err(GatherError::Fault(_)) => unreachable!(),
        Err(GatherError::Memory) => Err(AllocError),
    }
}

/// Runs the blocks of a loop by 1 to 16 workers.
fn run_by_workers<'a, R: Threads + Sync, G: Gate>(
    rt: &R,
    of: &SpeculativeLoop<'_, 'a>,
    workers: u32,
    gate: &G,
) -> Result<Vec<Block<'a>>, AllocError>
    requires some { 0 < workers }
    requires few { workers ≤ 16 }
    ensures ran { IfOk result (λ blocks. All (λ b. RecordsRunOf of.now (shown b)) blocks.items) }
    ensures faultless { IfOk result (λ blocks. AreFaultless of.now (map shown blocks.items)) }
{
    law_of_workers();
    let Ok((board, seats)) = Board::new(of.alloc, of.split.blocks(), workers) else {
        return Err(AllocError);
    };
    let (seats, blocks) = run_workers(rt, of, &board, seats, gate)?;
    // For the proof: by the tally no block is missing. The least break is read off the blocks, as without a board.
    let Ok(_tally) = board.gather(seats) else {
        unreachable!()
    };
    Ok(blocks)
}

/// What a loop leaves that passes, by page: worked out by several threads where several workers ran it.
fn left_pages<R: Threads + Sync>(
    rt: &R,
    of: &SpeculativeLoop,
    executor: Executor,
    gathered: &Gathered,
) -> Result<Vec<LeftPage>, AllocError>
    ensures { IfOk result (λ pages. AreLeft gathered.now.start gathered.now.words pages.items) }
{
    match executor {
        Executor::Caller | Executor::Workers(1) => gathered.left_pages(of.alloc),
        Executor::Workers(_) => gathered.left_pages_in_threads(rt, of.alloc),
    }
}

/// What becomes of a loop whose blocks are run.
#[tactic(auto, using(loop_core_gather::proofs::PassLaws::passes_so))]
pub(crate) fn decided<R: Threads + Sync, G: Gate>(
    rt: &R,
    of: &SpeculativeLoop,
    executor: Executor,
    workspace: &mut Workspace,
    gate: &G,
) -> Result<Decision, AllocError>
    requires { IsCrewFor of.now.bounds executor }
    ensures { IfOk result (IsDecision of.now.test of.now.program of.now.call of.now.start.words) }
{
    let blocks = match executor {
        Executor::Caller => run_alone(of, workspace, gate)?,
        Executor::Workers(workers) => run_by_workers(rt, of, workers, gate)?,
    };
    let gathered = gather_all(of, blocks)?;
    let decision = match gathered.verdict() {
        Verdict::Parallel => Decision::Commit {
            answer: gathered.answer(),
            pages: left_pages(rt, of, executor, &gathered)?,
        },
        verdict => Decision::Discard { verdict },
    };
    if let Some(free) = gathered.into_workspace() {
        workspace.keep(free);
    }
    Ok(decision)
}

/// What becomes of a loop call whose blocks are run on these maps, which are of the program's sizes, and stay as they
/// are.
pub(crate) fn decision_on<R: Threads + Sync, G: Gate>(
    rt: &R,
    job: &LoopJob,
    blocks: &BlockPlan,
    maps: &Maps,
    workspace: &mut Workspace,
    gate: &G,
) -> Result<Decision, AllocError>
    requires sizes { maps.now.sizes ≡ job.now.program.sizes }
    requires plan { IsBlockPlan job.now.call.n blocks.now }
    ensures { IfOk result (IsDecision job.now.plan.test job.now.program job.now.call maps.now.words) }
{
    let of = SpeculativeLoop {
        alloc: job.alloc,
        program: job.program,
        call: job.call,
        start: maps,
        split: &blocks.split,
        test: job.plan.test,
    };
    decided(rt, &of, blocks.executor, workspace, gate)
}
