//! Explaining a loop call.

ghost use Rattle.std.specs.{Prelude.{◌≡◌, IfOk}, List.{All, AllByRecursion}};
ghost use Rattle.bpf_verify_sound.specs.Soundness.{OverApproximatesCall};
ghost use Rattle.loop_core_witness.specs.{Breaks.{IsBreak}, Surveys.{IsSurvey}};
ghost use Rattle.spec_run_explain.specs.Causes.{FailsAt, IsCause, IsExplained, cause_elements, job_by};
ghost use Rattle.spec_run_loop.specs.Strategies.{IsStrategyUsed};

use crate::finding::find_conflicts;
use crate::showing::{grid_if, is_shown};
use crate::surveying::survey_loop;
use array_maps::Maps;
use bpf_step::LoopCall;
use bpf_verify::Verified;
use loop_core_model::{LoopReport, Test};
use loop_core_split::{Plan, Policy};
use loop_core_witness::{
    Cause, LoopExplained, Place, Survey, find_break, find_end_of_reduction, find_pair,
};
use spec_run_loop::{LoopJob, Strategy, predict_strategy};
use std::alloc::{AllocError, Global};

/// The causes of elements at which the loop fails the test.
#[tactic(auto, using(crate::proofs::CauseLaws::fails_here))]
fn causes_of(
    alloc: Global,
    program: &Verified,
    call: &LoopCall,
    start: &Maps,
    test: Test,
    elements: &[u32],
    broke: Option<Place>,
    survey: &Survey,
) -> Result<Vec<Cause>, AllocError>
    requires known { OverApproximatesCall program.now call.now }
    requires sizes { start.now.sizes ≡ program.now.sizes }
    requires broke { IsBreak program.now call.now start.now.words broke }
    requires survey { IsSurvey program.now call.now start.now.words survey.now }
    requires failing { All (FailsAt test program.now call.now start.now.words) elements.now }
    ensures elements { IfOk result (λ causes. cause_elements causes.items ≡ elements.now) }
    ensures causes { IfOk result (λ causes.
        AllByRecursion (IsCause test program.now call.now start.now.words) causes.items) }
{
    let mut causes = Vec::new(alloc);
    for element in elements {
        let element = *element;
        let end = find_end_of_reduction(alloc, program, call, start, element, broke, survey)?;
        let pair = find_pair(alloc, program, call, start, test, element, broke, survey)?;
        let Some(witness) = pair else { unreachable!() };
        causes.push(Cause {
            element,
            witness,
            end,
        })?;
    }
    Ok(causes)
}

/// Which way the loop call goes by the plan of a run that isn't given workers and blocks.
fn default_course(
    alloc: Global,
    program: &Verified,
    call: &LoopCall,
    start: &Maps,
    test: Test,
) -> Result<Strategy, AllocError>
    requires known { OverApproximatesCall program.now call.now }
    requires sizes { start.now.sizes ≡ program.now.sizes }
    ensures { IfOk result (IsStrategyUsed (job_by test program.now call.now) start.now.words) }
{
    let plan = Plan {
        workers: 2,
        blocks: 4,
        test,
        policy: Policy::Pays,
    };
    let job = LoopJob {
        alloc,
        program,
        call,
        plan: &plan,
    };
    predict_strategy(&job, start)
}

/// Explains a loop call that main of this program made: from these maps, which are of the program's sizes, and where it
/// answers this in order. If a grid is wanted, it is made of a loop that conflicts.
pub(crate) fn explain_call(
    alloc: Global,
    program: &Verified,
    call: &LoopCall,
    start: &Maps,
    test: Test,
    most: u32,
    wants_grid: bool,
    answer: u32,
) -> Result<LoopExplained, AllocError>
    requires known { OverApproximatesCall program.now call.now }
    requires sizes { start.now.sizes ≡ program.now.sizes }
    ensures { IfOk result (IsExplained test program.now call.now start.now.words most wants_grid answer) }
{
    let conflicts = find_conflicts(alloc, program, call, start, test, most)?;
    let broke = find_break(alloc, program, call, start, conflicts.broke)?;
    let survey = survey_loop(alloc, program, call, start, &conflicts)?;
    let causes = causes_of(
        alloc,
        program,
        call,
        start,
        test,
        conflicts.least.as_slice(),
        broke,
        &survey,
    )?;
    let shown = is_shown(wants_grid, conflicts.verdict);
    let grid = grid_if(shown, alloc, program, call, start, broke, causes.as_slice())?;
    let strategy = default_course(alloc, program, call, start, test)?;
    let line = LoopReport {
        slot: call.slot(),
        answer: i64::from(answer),
        verdict: conflicts.verdict,
    };
    Ok(LoopExplained {
        line,
        iterations: call.n(),
        flags: 0,
        broke,
        strategy: Some(strategy),
        causes,
        grid,
    })
}
