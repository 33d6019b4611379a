//! The report on a row that is run by a plan: on its first loop alone, on its program, and on it as an input.

ghost use Rattle.bpf_verify_sound.specs.Soundness.{OverApproximatesCall};

use crate::rows::{FirstLoop, Row, spelled_out};
use bpfspec_output::{print_replay, print_report};
use bpfspec_serve::{Counted, Job, UnitForm, Unobserved, serve};
use loop_core_model::LoopReport;
use loop_core_split::{Gate, Split};
use spec_run::{Plan, run};
use spec_run_loop::{LoopRun, run_loop};
use std::alloc::Global;
use std::test::Fail;
use std::thread::Threads;

/// The report on the first loop of a row: its line, and the maps after it.
pub(crate) fn loop_report<R: Threads + Sync, G: Gate>(
    rt: &R,
    alloc: Global,
    row: &Row,
    first: &FirstLoop,
    plan: &Plan,
    gate: &G,
) -> Result<String, Fail>
    requires { OverApproximatesCall row.now.program first.now.call }
{
    let split = Split::even(first.call.n(), plan.blocks)?;
    let by = LoopRun {
        alloc,
        program: &row.program,
        call: &first.call,
        start: &first.maps,
        split: &split,
        workers: plan.workers,
        test: plan.test,
    };
    let outcome = run_loop(rt, &by, gate)?;
    let line = LoopReport {
        slot: first.call.slot(),
        answer: i64::from(outcome.answer),
        verdict: outcome.verdict,
    };
    Ok(print_replay(alloc, 0, &line, &outcome.maps)?)
}

/// The report on the program of a row: its return value, its loops, and the maps after it.
pub(crate) fn report<R: Threads + Sync, G: Gate>(
    rt: &R,
    alloc: Global,
    row: &Row,
    plan: &Plan,
    gate: &G,
) -> Result<String, Fail> {
    let mut maps = row.maps.try_copy(alloc)?;
    let ran = run(rt, alloc, &row.program, &mut maps, 0, plan, gate)?;
    Ok(print_report(alloc, ran.ret, &ran.loops, &maps)?)
}

/// What is written where a row is the input.
pub(crate) fn served<R: Threads + Sync, G: Gate>(
    rt: &R,
    alloc: Global,
    row: &str,
    plan: &Plan,
    gate: &G,
) -> Result<String, Fail> {
    let input = spelled_out(alloc, row)?;
    let mut source = Counted::new(input.as_bytes());
    let mut sink = Counted::new(Vec::new(alloc));
    let job = Job::Run {
        form: UnitForm::Assembler,
        arg: 0,
        plan: *plan,
    };
    serve(
        rt,
        alloc,
        &job,
        gate,
        &mut Unobserved,
        &mut source,
        &mut sink,
    );
    let output = sink.into_inner();
    Ok(String::from_str(alloc, str::from_utf8(&output)?)?)
}
