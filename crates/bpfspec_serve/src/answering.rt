//! What comes of an input.

ghost use Rattle.std.specs.{Prelude.{◌≡◌, ◌<◌, ◌≤◌, IfOk, Ok, length}, String.{string_bytes}};
ghost use Rattle.bpf_insn_types.specs.Program.{callback_starts};
ghost use Rattle.bpfspec_command_line.specs.declared.job.Mode.TheVariants.{Order, Replay};
ghost use Rattle.bpfspec_serve.specs.Output.{unit_program, function_numbered, functions_of, loop_replay, IsReplayed};
ghost use Rattle.bpfspec_serve.specs.Output.{replay_refusal, PrintsReportByPlan, ReplaysTo};
ghost use Rattle.bpfspec_serve.specs.Output.{InMode, ByPlan, OfInput, SatisfiesUnlessMemory, written, accepted};
ghost use Rattle.bpfspec_serve.specs.{Output.{verified}, Sections.{unit_section}};

use crate::answer_error::AnswerError;
use crate::reading::{accept, codec_error, read_events, read_unit, readable, start_maps};
use crate::sections::part;
use array_maps::Maps;
use bpf_text::{print_unit, write_hex};
use bpf_verify::Verified;
use bpfspec_command_line::{Mode, Plan, Test, UnitForm};
use bpfspec_output::{Function, Refusal, print_accepted, print_replay, print_report};
use loop_core_model::Event;
use loop_core_split::Gate;
use spec_run::{Observer, RunError, run_in_order, run_observed};
use spec_run_replay::{NoReplay, ReplayRefusal, Replayed, replay};
use std::alloc::{AllocError, Global};
use std::thread::Threads;

/// What comes of a unit, its argument and its maps.
fn order(alloc: Global, form: UnitForm, argument: u64, input: &str) -> Result<String, AnswerError>
    ensures { SatisfiesUnlessMemory string_bytes (InMode (Order form argument) input.now) result }
{
    let unit = part(input);
    let maps = part(unit.rest);
    let program = accept(alloc, form, unit.section)?;
    let mut maps = start_maps(alloc, &program, maps.section)?;
    match run_in_order(alloc, &program, &mut maps, argument) {
        Ok(report) => Ok(print_report(alloc, report.ret, &report.loops, &maps)?),
        Err(RunError::Sizes) => unreachable!(),
        Err(RunError::Plan) => unreachable!(),
        Err(RunError::Memory) => Err(AnswerError::Memory),
    }
}

/// What comes of a program that runs by a plan on these maps, which are of its sizes.
fn run_on<R: Threads + Sync, G: Gate, O: Observer>(
    rt: &R,
    alloc: Global,
    program: &Verified,
    maps: Maps,
    argument: u64,
    plan: &Plan,
    gate: &G,
    observer: &mut O,
) -> Result<String, AnswerError>
    requires { maps.sizes ≡ program.now.sizes }
    ensures { SatisfiesUnlessMemory string_bytes (PrintsReportByPlan program.now argument plan.now (Ok maps.words))
        result }
{
    let mut maps = maps;
    match run_observed(
        rt, alloc, program, &mut maps, argument, plan, gate, observer,
    ) {
        Ok(report) => Ok(print_report(alloc, report.ret, &report.loops, &maps)?),
        Err(RunError::Sizes) => unreachable!(),
        Err(RunError::Plan) => Err(AnswerError::Refused(Refusal::Plan)),
        Err(RunError::Memory) => Err(AnswerError::Memory),
    }
}

/// The refusal of a replay.
fn replay_refusal(refusal: ReplayRefusal) -> Refusal
    ensures { result ≡ replay_refusal refusal }
{
    match refusal {
        ReplayRefusal::NoLoop => Refusal::NoLoop,
        ReplayRefusal::Split(fault) => Refusal::Split(fault),
        ReplayRefusal::Schedule(fault) => Refusal::Schedule(fault),
    }
}

/// Replays the first valid loop call of a program with these bounds and events, on these maps, which are of its sizes.
pub(crate) fn replay_with(
    alloc: Global,
    program: &Verified,
    maps: Maps,
    argument: u64,
    schedule: (Vec<u32>, Vec<Event>),
    test: Test,
) -> Result<Replayed, AnswerError>
    requires sizes { maps.sizes ≡ program.now.sizes }
    ensures replayed { SatisfiesUnlessMemory loop_replay (IsReplayed test program.now argument maps.words
        (schedule.0.items, schedule.1.items)) result }
    ensures sizes { IfOk result (λ replayed. replayed.maps.sizes ≡ program.now.sizes) }
{
    let (bounds, events) = schedule;
    match replay(alloc, program, maps, argument, bounds, &events, test) {
        Ok(replayed) => Ok(replayed),
        Err(NoReplay::Refused(refusal)) => Err(AnswerError::Refused(replay_refusal(refusal))),
        Err(NoReplay::Memory) => Err(AnswerError::Memory),
    }
}

/// What is printed of that.
fn replay_on(
    alloc: Global,
    program: &Verified,
    maps: Maps,
    argument: u64,
    schedule: (Vec<u32>, Vec<Event>),
    test: Test,
) -> Result<String, AnswerError>
    requires sizes { maps.sizes ≡ program.now.sizes }
    ensures { SatisfiesUnlessMemory string_bytes (ReplaysTo program.now argument test (Ok maps.words)
        (Ok (schedule.0.items, schedule.1.items))) result }
{
    match replay_with(alloc, program, maps, argument, schedule, test) {
        Ok(replayed) => Ok(print_replay(alloc, replayed.number, &replayed.report, &replayed.maps)?),
        Err(error) => Err(error),
    }
}

/// What comes of a unit, its argument, its maps, and events of its first valid loop call.
fn replay_first_loop(
    alloc: Global,
    form: UnitForm,
    argument: u64,
    test: Test,
    input: &str,
) -> Result<String, AnswerError>
    ensures { SatisfiesUnlessMemory string_bytes (InMode (Replay form argument test) input.now) result }
{
    let unit = part(input);
    let maps = part(unit.rest);
    let program = accept(alloc, form, unit.section)?;
    let start = start_maps(alloc, &program, maps.section)?;
    let schedule = read_events(alloc, maps.rest)?;
    replay_on(alloc, &program, start, argument, schedule, test)
}

/// What comes of a unit that is written in another form.
fn translate(
    alloc: Global,
    from: UnitForm,
    to: UnitForm,
    input: &str,
) -> Result<String, AnswerError>
    ensures { SatisfiesUnlessMemory string_bytes (λ outcome. outcome ≡ written to
        (unit_program from (unit_section input.now))) result }
{
    let unit = read_unit(alloc, from, part(input).section)?;
    let text = match to {
        UnitForm::Assembler => print_unit(alloc, &unit),
        UnitForm::Hex => write_hex(alloc, &unit),
    };
    match text {
        Ok(text) => Ok(text),
        Err(error) => Err(codec_error(error)),
    }
}

/// A function of an accepted program, whose number is at most the program's `callbacks()`.
pub(crate) fn function_of(program: &Verified, number: u32) -> Function
    requires { number ≤ length (callback_starts program.now.insns) }
    ensures { result ≡ function_numbered program.now.insns number }
{
    Function {
        start: program.start(number),
        count: program.count(number),
    }
}

/// The functions of an accepted program: main, and each callback.
fn functions_of(alloc: Global, program: &Verified) -> Result<Vec<Function>, AllocError>
    ensures { IfOk result (λ functions. functions.items ≡ functions_of program.now.insns) }
{
    let mut functions = Vec::new(alloc);
    functions.push(function_of(program, 0))?;
    for callback in 0..program.callbacks() {
        functions.push(function_of(program, callback + 1))?;
    }
    Ok(functions)
}

/// The answer on an accepted program: its functions.
fn judge(alloc: Global, form: UnitForm, input: &str) -> Result<String, AnswerError>
    ensures { SatisfiesUnlessMemory string_bytes (λ outcome. outcome
        ≡ verified (accepted (unit_program form (unit_section input.now)))) result }
{
    let program = accept(alloc, form, part(input).section)?;
    Ok(print_accepted(alloc, &functions_of(alloc, &program)?)?)
}

/// What comes of an input in a mode.
pub(crate) fn outcome(alloc: Global, mode: &Mode, input: &[u8]) -> Result<String, AnswerError>
    ensures { SatisfiesUnlessMemory string_bytes (OfInput (InMode mode.now) input.now) result }
{
    let text = readable(input)?;
    match mode {
        Mode::Verify { form } => judge(alloc, *form, text),
        Mode::Order { form, arg } => order(alloc, *form, *arg, text),
        Mode::Replay { form, arg, test } => replay_first_loop(alloc, *form, *arg, *test, text),
        Mode::Asm => translate(alloc, UnitForm::Assembler, UnitForm::Hex, text),
        Mode::Disasm => translate(alloc, UnitForm::Hex, UnitForm::Assembler, text),
    }
}

/// What comes of an input whose program runs by a plan. An observer is notified of the run.
pub(crate) fn run_outcome<R: Threads + Sync, G: Gate, O: Observer>(
    rt: &R,
    alloc: Global,
    form: UnitForm,
    argument: u64,
    plan: &Plan,
    gate: &G,
    observer: &mut O,
    input: &[u8],
) -> Result<String, AnswerError>
    ensures { SatisfiesUnlessMemory string_bytes (OfInput (ByPlan form argument plan.now) input.now) result }
{
    let unit = part(readable(input)?);
    let maps = part(unit.rest);
    let program = accept(alloc, form, unit.section)?;
    let maps = start_maps(alloc, &program, maps.section)?;
    run_on(rt, alloc, &program, maps, argument, plan, gate, observer)
}
