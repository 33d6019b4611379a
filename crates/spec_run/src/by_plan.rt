//! Running a program whose loop calls are run by a plan.

ghost use Rattle.std.specs.Prelude.{◌≡◌, IfOk};
ghost use Rattle.loop_core_model.specs.Report.{loop_report};
ghost use Rattle.spec_run_main.specs.Reports.{IsReportByTest};
ghost use Rattle.spec_run.specs.Calls.{MayRun, MayAnswer, RunsCalls};

use crate::observing::Observer;
use array_maps::Maps;
use bpf_step::LoopCall;
use bpf_step_model::RefusedCall;
use bpf_verify::Verified;
use loop_core_model::{LoopReport, Test, Verdict};
use spec_run_loop::{LoopAnswer, Workspace};
use spec_run_main::{LoopRunner, Report, run_main};
use std::alloc::{AllocError, Global};

/// Runs a loop call on these maps, in a workspace.
fn run_one<F: Fn(&LoopCall, &mut Maps, &mut Workspace) -> Result<LoopAnswer, AllocError>>(
    run_call: &F,
    call: &LoopCall,
    maps: &mut Maps,
    workspace: &mut Workspace,
) -> Result<LoopAnswer, AllocError>
    requires { MayRun F.Fn run_call.now call.now maps.old }
    ensures { MayAnswer F.Fn run_call.now call.now maps.old result maps.new }
{
    run_call(call, maps, workspace)
}

/// Runs each loop call by `run`, all in one workspace, notifies an observer of it, and keeps the lines of the report,
/// by a test.
#[derive(Drop)]
struct ByPlan<'r, 'o, F, O> {
    run: &'r F,
    test: Test,
    observer: &'o mut O,
    workspace: Workspace,
    lines: Vec<LoopReport>,
}

impl<
    F: Fn(&LoopCall, &mut Maps, &mut Workspace) -> Result<LoopAnswer, AllocError>,
    O: Observer,
> LoopRunner for ByPlan<'_, '_, F, O> {
    ghost use Rattle.spec_run_main.specs.Lines.{AreLines};

    type Stop = AllocError;

    ghost records = { λ program first calls now. (now.test ≡ first.test)
        × RunsCalls F.Fn now.run.now (loop_report now.test program 4096) program
        × AreLines (loop_report now.test program 4096) calls now.lines.items };

    ghost room = { λ _. 4096 };

    fn run_call(
        &mut self,
        program: &Verified,
        call: &LoopCall,
        maps: &mut Maps,
    ) -> Result<u32, AllocError> {
        self.observer.begin_loop();
        let answered = run_one(self.run, call, maps, &mut self.workspace)?;
        let number = self.lines.len();
        self.observer.end_loop(program, number, call, &answered);
        self.lines.push(LoopReport {
            slot: call.slot(),
            answer: i64::from(answered.answer),
            verdict: answered.verdict,
        })?;
        Ok(answered.answer)
    }

    fn note_refusal(&mut self, slot: u32, call: RefusedCall) -> Result<(), AllocError> {
        self.lines.push(LoopReport {
            slot,
            answer: call.answer,
            verdict: Verdict::Refused,
        })?;
        Ok(())
    }
}

/// Runs main of the program, its argument in R1, on these maps, which are of its sizes, and changes them as it goes.
/// Each loop call is run by `run`, and reported by the test. The observer is notified of the program and of its loop
/// calls. Where memory runs out the maps stay as they are then.
pub(crate) fn run_program<
    F: Fn(&LoopCall, &mut Maps, &mut Workspace) -> Result<LoopAnswer, AllocError>,
    O: Observer,
>(
    alloc: Global,
    program: &Verified,
    maps: &mut Maps,
    argument: u64,
    test: Test,
    run: &F,
    observer: &mut O,
) -> Result<Report, AllocError>
    requires sizes { maps.old.sizes ≡ program.now.sizes }
    requires runs { RunsCalls F.Fn run.now (loop_report test program.now 4096) program.now }
    ensures { IfOk result (λ report. IsReportByTest test program.now argument maps.old maps.new report) }
{
    observer.begin();
    let lines = Vec::new(alloc);
    let mut runner = ByPlan {
        run,
        test,
        observer,
        workspace: Workspace::new(),
        lines,
    };
    let ret = run_main(program, maps, argument, &mut runner)?;
    runner.observer.end();
    Ok(Report {
        ret,
        loops: runner.lines,
    })
}
