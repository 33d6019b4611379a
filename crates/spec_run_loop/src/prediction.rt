//! Which way a loop call goes, found without running it that way.

ghost use Rattle.std.specs.Prelude.{◌≡◌, IfOk};
ghost use Rattle.spec_run_loop.specs.Strategies.{IsStrategyUsed, IsWatchedStrategy};

use crate::cost_model::elements_of;
use crate::job::LoopJob;
use crate::strategy::{BlockPlan, StrategyPlan, choose_strategy};
use crate::watching::{never_conflicts, run_independent};
use array_maps::Maps;
use loop_core_sequential::{WatchedLoop, in_order_watched};
use loop_core_split::Strategy;
use loop_core_undo::UndoLog;
use std::alloc::AllocError;

/// Which way a loop call goes that is watched, from these maps.
fn watched_course(
    job: &LoopJob,
    otherwise: &BlockPlan,
    start: &Maps,
) -> Result<Strategy, AllocError>
    requires sizes { start.now.sizes ≡ job.now.program.sizes }
    ensures { IfOk result (IsWatchedStrategy job.now start.now.words otherwise.now) }
{
    // For the proof: the maps have as many words as their sizes add up to, each below 2^64.
    let _sizes = start.sizes();
    let _words = start.words();
    let mut maps = start.try_copy(job.alloc)?;
    if never_conflicts(job)? {
        return Ok(run_independent(job, &mut maps).strategy);
    }
    let mut log = UndoLog::try_new(job.alloc, elements_of(start))?;
    match in_order_watched(job.program, job.call, &mut log, &mut maps) {
        WatchedLoop::Passed(_answer) => Ok(Strategy::Watched),
        WatchedLoop::Dependent(_progress) => Ok(otherwise.strategy()),
    }
}

/// Which way `run_by_plan` takes a loop call from these maps, which are of the program's sizes and stay as they are. It
/// starts no thread, and runs a loop only where it is watched.
pub fn predict_strategy(job: &LoopJob, start: &Maps) -> Result<Strategy, AllocError>
    requires sizes { start.now.sizes ≡ job.now.program.sizes }
    ensures { IfOk result (IsStrategyUsed job.now start.now.words) }
{
    match choose_strategy(job, elements_of(start)) {
        StrategyPlan::Sums { of: _of, workers } => Ok(Strategy::Sums { workers }),
        StrategyPlan::Watched { otherwise } => watched_course(job, &otherwise, start),
        StrategyPlan::ByBlocks { blocks } => Ok(blocks.strategy()),
    }
}
