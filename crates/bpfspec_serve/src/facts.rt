//! The facts of an input, as records.

ghost use Rattle.std.specs.Prelude.{◌≡◌, ◌≤◌, ◌∷◌, [], ◌++◌, length, IfOk, OnOk};
ghost use Rattle.bpf_insn_types.specs.Program.{callback_starts};
ghost use Rattle.bpfspec_serve.specs.Facts.{Adds, AddsRefusal, AreFacts, AreInputFacts, AreReplayFacts, AreRunFacts};
ghost use Rattle.bpfspec_serve.specs.Facts.{AreUnitFacts, function_record, function_records, header, is_hex};
ghost use Rattle.bpfspec_serve.specs.Facts.{most_pairs, verify_served};
ghost use Rattle.bpfspec_serve.specs.Output.{judged, maps_start_words, readable, text_answer, verified};

use crate::answer_error::AnswerError;
use crate::answering::{function_of, replay_with};
use crate::program_end::{ProgramEnd, exit_status};
use crate::reading::{accept_unit, read_events, read_unit, readable, start_maps};
use crate::sections::part;
use crate::serving::{Served, refused_as};
use array_maps::Maps;
use bpf_insn_types::Unit;
use bpf_verify::Verified;
use bpf_verify_origin::{copied, inspect};
use bpfspec_command_line::{Ask, UnitForm};
use bpfspec_records::{Record, add_unit_records, loop_records};
use spec_run_explain::explain_loops;
use std::alloc::{AllocError, Global};

/// The facts of an input, and how `verify` serves it.
#[derive(Drop)]
pub(crate) struct Facts {
    pub(crate) served: Served,
    pub(crate) records: Vec<Record>,
}

/// Whether a unit is in hex form.
fn is_hex(form: UnitForm) -> bool
    ensures { result ≡ is_hex form }
{
    match form {
        UnitForm::Assembler => false,
        UnitForm::Hex => true,
    }
}

/// What is asked, as a record.
fn header(ask: &Ask) -> Record
    ensures { result ≡ header ask.now }
{
    Record::Header {
        hex: is_hex(ask.form),
        argument: ask.arg,
        test: ask.test,
        states: ask.states,
        all: ask.all,
        grid: ask.grid,
    }
}

/// Adds the record of the refusal that an error is, and gives how an input is served that has it. It fails where the
/// error is that memory ran out.
fn add_refusal(records: &mut Vec<Record>, error: AnswerError) -> Result<Served, AllocError>
    ensures { IfOk result (AddsRefusal error records.old.items records.new.items) }
{
    match error {
        AnswerError::Refused(refusal) => {
            records.extend_from_slice(&[Record::Refusal(refusal)])?;
            Ok(refused_as(refusal))
        }
        AnswerError::Memory => Err(AllocError),
    }
}

/// Adds the record of a function of an accepted program, whose number is at most the program's `callbacks()`.
fn add_function(
    records: &mut Vec<Record>,
    program: &Verified,
    number: u32,
) -> Result<(), AllocError>
    requires { number ≤ length (callback_starts program.now.insns) }
    ensures { OnOk result (records.new.items ≡ records.old.items ++ function_record program.now.insns number ∷ []) }
{
    let function = function_of(program, number);
    records.extend_from_slice(&[Record::Function { number, function }])
}

/// Adds the records of an accepted program's functions: main, and each callback.
fn add_functions(records: &mut Vec<Record>, program: &Verified) -> Result<(), AllocError>
    ensures { OnOk result (records.new.items ≡ records.old.items ++ function_records program.now.insns) }
{
    let last = program.callbacks();
    for number in 0..last {
        add_function(records, program, number)?;
    }
    add_function(records, program, last)?;
    Ok(())
}

/// Adds the record of why a program's first valid loop call isn't replayed with the bounds and events of a section, if
/// the section has any.
fn add_replay_facts(
    alloc: Global,
    ask: &Ask,
    records: &mut Vec<Record>,
    program: &Verified,
    maps: Maps,
    events: &str,
) -> Result<(), AllocError>
    requires { maps.sizes ≡ program.now.sizes }
    ensures { OnOk result (Adds (AreReplayFacts ask.now program.now maps.words events.now) records.old.items
        records.new.items) }
{
    if events.is_empty() {
        return Ok(());
    }
    let schedule = match read_events(alloc, events) {
        Ok(schedule) => schedule,
        Err(error) => {
            add_refusal(records, error)?;
            return Ok(());
        }
    };
    let _replayed = match replay_with(alloc, program, maps, ask.arg, schedule, ask.test) {
        Ok(replayed) => replayed,
        Err(error) => {
            add_refusal(records, error)?;
            return Ok(());
        }
    };
    Ok(())
}

/// At most how many elements that conflict have a pair, of each loop.
fn most_pairs(ask: &Ask) -> u32
    ensures { result ≡ most_pairs ask.now }
{
    if ask.all { 64 } else { 1 }
}

/// Adds the records of an accepted program's loops on the maps of a section, and of why its replay with another
/// section's events is refused; or of why the maps are.
fn add_run_facts(
    alloc: Global,
    ask: &Ask,
    records: &mut Vec<Record>,
    program: &Verified,
    maps: &str,
    events: &str,
) -> Result<(), AllocError>
    ensures { OnOk result (Adds (AreRunFacts ask.now program.now (maps_start_words program.now.sizes maps.now)
        events.now) records.old.items records.new.items) }
{
    let start = match start_maps(alloc, program, maps) {
        Ok(start) => start,
        Err(error) => {
            add_refusal(records, error)?;
            return Ok(());
        }
    };
    let mut after = start.try_copy(alloc)?;
    let most = most_pairs(ask);
    let explained = explain_loops(
        alloc, program, &mut after, ask.arg, ask.test, most, ask.grid,
    )?;
    let loops = loop_records(alloc, program.sizes(), &explained)?;
    records.extend_from_slice(&loops)?;
    add_replay_facts(alloc, ask, records, program, start, events)?;
    Ok(())
}

/// Adds the facts of a unit and of its runs on the maps and with the events of two sections, and gives how `verify`
/// serves it.
fn add_unit_facts(
    alloc: Global,
    ask: &Ask,
    records: &mut Vec<Record>,
    unit: Unit,
    maps: &str,
    events: &str,
) -> Result<Served, AllocError>
    ensures served { IfOk result (λ served. served ≡ (text_answer (verified (judged unit))).served) }
    ensures facts { OnOk result (Adds (AreUnitFacts ask.now unit (judged unit) maps.now events.now)
        records.old.items records.new.items) }
{
    let inspection = inspect(alloc, copied(alloc, &unit)?)?;
    match accept_unit(alloc, unit) {
        Ok(program) => {
            add_functions(records, &program)?;
            add_unit_records(records, &inspection, ask.states)?;
            add_run_facts(alloc, ask, records, &program, maps, events)?;
            Ok(Served::Done)
        }
        Err(error) => {
            let served = add_refusal(records, error)?;
            add_unit_records(records, &inspection, ask.states)?;
            Ok(served)
        }
    }
}

/// Adds the facts of an input, and gives how `verify` serves it.
fn add_input_facts(
    alloc: Global,
    ask: &Ask,
    records: &mut Vec<Record>,
    input: &[u8],
) -> Result<Served, AllocError>
    ensures served { IfOk result (λ served. served ≡ verify_served ask.now.form (readable input.now)) }
    ensures facts { OnOk result (Adds (AreInputFacts ask.now (readable input.now)) records.old.items
        records.new.items) }
{
    let text = match readable(input) {
        Ok(text) => text,
        Err(error) => return add_refusal(records, error),
    };
    let unit = part(text);
    let maps = part(unit.rest);
    match read_unit(alloc, ask.form, unit.section) {
        Ok(program) => add_unit_facts(alloc, ask, records, program, maps.section, maps.rest),
        Err(error) => add_refusal(records, error),
    }
}

/// The facts of an input: what is asked; what `verify` says of its unit; the unit's maps and instructions; if it is
/// accepted, its loops, unless its maps are refused; why its maps or events are refused; and the exit status. Memory
/// may run out.
pub(crate) fn facts_of(alloc: Global, ask: &Ask, input: &[u8]) -> Result<Facts, AllocError>
    ensures served { IfOk result (λ facts. facts.served ≡ verify_served ask.now.form (readable input.now)) }
    ensures records { IfOk result (λ facts. AreFacts ask.now (readable input.now) facts.records.items) }
{
    let mut records = Vec::new(alloc);
    records.extend_from_slice(&[header(ask)])?;
    let served = add_input_facts(alloc, ask, &mut records, input)?;
    let status = exit_status(ProgramEnd::Served(served));
    records.extend_from_slice(&[Record::End { status }])?;
    Ok(Facts { served, records })
}
