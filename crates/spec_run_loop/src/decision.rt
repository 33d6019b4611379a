//! What becomes of a loop.

ghost use Rattle.std.specs.Prelude.{◌≡◌};
ghost use Rattle.loop_core_sequential.specs.Dependences.{IsAhead};
ghost use Rattle.loop_core_gather.specs.{Decisions.{IsDecision}, Gathered.{IsOutcome}};

use crate::job::LoopJob;
use array_maps::Maps;
use loop_core_gather::{Decision, LoopResult};
use loop_core_model::Verdict;
use loop_core_sequential::{Progress, resume_in_order};
use loop_core_split::Strategy;
use loop_core_undo::UndoLog;

/// The verdict on a loop, what its call answers, which is how many iterations ran in order, or would have, and which
/// way it went.
#[derive(Clone, Copy)]
pub struct LoopAnswer {
    pub verdict: Verdict,
    pub answer: u32,
    pub strategy: Strategy,
}

impl LoopAnswer {
    ghost use Rattle.loop_core_model.specs.declared.verdict.Verdict.TheVariants as verdicts;

    /// The answer on a loop that passes.
    pub(crate) fn passed(answer: u32, strategy: Strategy) -> LoopAnswer
        ensures { result ≡ record { verdict = verdicts.Parallel; answer = answer; strategy = strategy } }
    {
        LoopAnswer {
            verdict: Verdict::Parallel,
            answer,
            strategy,
        }
    }
}

/// Applies to the maps the decision on a loop call whose watched run was abandoned after this progress: if the call
/// doesn't pass, it continues in order from there. The maps and the log are as the watched run left them.
pub(crate) fn carry_out_from(
    decision: Decision,
    job: &LoopJob,
    progress: Progress,
    log: &mut UndoLog,
    maps: &mut Maps,
) -> LoopResult
    requires sizes { maps.old.sizes ≡ job.now.program.sizes }
    requires ahead { IsAhead job.now.program job.now.call maps.old log.old progress }
    requires decided { IsDecision job.now.plan.test job.now.program job.now.call maps.old.words decision }
    ensures { IsOutcome job.now.plan.test job.now.program job.now.call maps.old result.verdict result.answer
        maps.new }
{
    match decision {
        Decision::Discard { verdict } => LoopResult {
            verdict,
            answer: resume_in_order(job.program, job.call, progress, log, maps),
        },
        commit => commit.apply(job.program, job.call, maps, job.plan.test),
    }
}
