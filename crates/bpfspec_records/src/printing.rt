//! The lines of records.

ghost use Rattle.std.specs.{Prelude.{◌≡◌, ◌++◌, OnOk, IfOk}, List.{flat_map}, String.{string_bytes}};
ghost use Rattle.bpfspec_records.specs.Printed.{printed};
ghost use Rattle.bpfspec_records.specs.declared.records.Record.TheVariants as records;

use crate::fields::{
    add_flag, add_insn, add_number, add_optional, add_signed, add_wide, add_word, begin, end,
};
use crate::loop_printing::{add_cell, add_grid, add_loop, add_pair};
use crate::optional::widened;
use crate::records::{FrameOf, Record};
use crate::refusals::add_refusal;
use crate::values::add_value;
use bpf_insn_types::{Insn, Reg};
use bpf_verify_model::AbstractValue;
use bpf_verify_origin::Source;
use bpfspec_output::Function;
use loop_core_model::Test;
use std::alloc::{AllocError, Global};

/// Adds what was asked.
#[tactic(auto, unfolding(crate::specs::Printed::printed))]
fn add_header(
    out: &mut String,
    hex: bool,
    argument: u64,
    test: Test,
    states: bool,
    all: bool,
    grid: bool,
) -> Result<(), AllocError>
    ensures { OnOk result (string_bytes out.new
        ≡ string_bytes out.old ++ printed (records.Header hex argument test states all grid)) }
{
    begin(out, "header")?;
    add_number(out, "version", 1)?;
    add_word(out, "form", if hex { "hex" } else { "text" })?;
    add_wide(out, "argument", argument)?;
    let test = match test {
        Test::Lrpd => "lrpd",
        Test::Flow => "flow",
    };
    add_word(out, "test", test)?;
    add_flag(out, "states", states)?;
    add_flag(out, "all", all)?;
    add_flag(out, "grid", grid)?;
    end(out)
}

/// Adds a function.
#[tactic(auto, unfolding(crate::specs::Printed::printed))]
fn add_function(out: &mut String, number: u32, function: Function) -> Result<(), AllocError>
    ensures { OnOk result (string_bytes out.new ≡ string_bytes out.old ++ printed (records.Function number function)) }
{
    begin(out, "function")?;
    add_number(out, "function", u64::from(number))?;
    add_number(out, "slot", u64::from(function.start))?;
    add_number(out, "count", u64::from(function.count))?;
    end(out)
}

/// Adds a map.
#[tactic(auto, unfolding(crate::specs::Printed::printed))]
fn add_map(out: &mut String, map: usize, elements: u32) -> Result<(), AllocError>
    ensures { OnOk result (string_bytes out.new ≡ string_bytes out.old ++ printed (records.Map map elements)) }
{
    begin(out, "map")?;
    add_number(out, "map", map as u64)?;
    add_number(out, "elements", u64::from(elements))?;
    end(out)
}

/// Adds an instruction.
#[tactic(auto, unfolding(crate::specs::Printed::printed))]
fn add_insn_record(
    out: &mut String,
    alloc: Global,
    slot: u32,
    insn: &Insn,
    reached: bool,
    ahead: Option<u32>,
    aside: Option<u32>,
) -> Result<(), AllocError>
    ensures { OnOk result (string_bytes out.new
        ≡ string_bytes out.old ++ printed (records.Insn slot insn.now reached ahead aside)) }
{
    begin(out, "insn")?;
    add_number(out, "slot", u64::from(slot))?;
    add_insn(out, alloc, "insn", insn)?;
    add_flag(out, "reached", reached)?;
    add_optional(out, "ahead", widened(ahead))?;
    add_optional(out, "aside", widened(aside))?;
    end(out)
}

/// Adds what a register may have before a slot, or on the edges from there to another.
#[tactic(auto, unfolding(crate::specs::Printed::printed))]
fn add_known(
    out: &mut String,
    slot: u32,
    to: Option<u32>,
    register: Reg,
    value: &AbstractValue,
) -> Result<(), AllocError>
    ensures { OnOk result (string_bytes out.new
        ≡ string_bytes out.old ++ printed (records.Value slot to register value.now)) }
{
    match to {
        None => {
            begin(out, "value")?;
            add_number(out, "slot", u64::from(slot))?;
        }
        Some(to) => {
            begin(out, "edge")?;
            add_number(out, "slot", u64::from(slot))?;
            add_number(out, "to", u64::from(to))?;
        }
    }
    add_number(out, "register", u64::from(register.number()))?;
    add_value(out, value)?;
    end(out)
}

/// Adds where a register's value comes from that is read, and the slot of that.
#[tactic(auto, unfolding(crate::specs::Printed::printed, crate::specs::Printed::source_fields))]
fn add_read(out: &mut String, slot: u32, register: Reg, source: Source) -> Result<(), AllocError>
    ensures { OnOk result (string_bytes out.new ≡ string_bytes out.old ++ printed (records.Read slot register source)) }
{
    begin(out, "read")?;
    add_number(out, "slot", u64::from(slot))?;
    add_number(out, "register", u64::from(register.number()))?;
    let (word, at) = match source {
        Source::Start => ("start", None),
        Source::Written(at) => ("written", Some(at)),
        Source::Entered(at) => ("entered", Some(at)),
        Source::Meeting(at) => ("join", Some(at)),
    };
    add_word(out, "source", word)?;
    add_optional(out, "at", widened(at))?;
    end(out)
}

/// Adds a byte that isn't written.
#[tactic(auto, unfolding(crate::specs::Printed::printed))]
fn add_unwritten(out: &mut String, slot: u32, frame: FrameOf, offset: i64) -> Result<(), AllocError>
    ensures { OnOk result (string_bytes out.new
        ≡ string_bytes out.old ++ printed (records.Unwritten slot frame offset)) }
{
    begin(out, "unwritten")?;
    add_number(out, "slot", u64::from(slot))?;
    let whose = match frame {
        FrameOf::Own => "own",
        FrameOf::Main => "main",
    };
    add_word(out, "frame", whose)?;
    add_signed(out, "offset", offset)?;
    end(out)
}

/// Adds the last line.
#[tactic(auto, unfolding(crate::specs::Printed::printed))]
fn add_end(out: &mut String, status: u8) -> Result<(), AllocError>
    ensures { OnOk result (string_bytes out.new ≡ string_bytes out.old ++ printed (records.End status)) }
{
    begin(out, "end")?;
    add_number(out, "status", u64::from(status))?;
    end(out)
}

/// Adds the line of a record.
fn print_record(out: &mut String, alloc: Global, fact: &Record) -> Result<(), AllocError>
    ensures { OnOk result (string_bytes out.new ≡ string_bytes out.old ++ printed fact.now) }
{
    match *fact {
        Record::Header {
            hex,
            argument,
            test,
            states,
            all,
            grid,
        } => add_header(out, hex, argument, test, states, all, grid),
        Record::Refusal(refusal) => add_refusal(out, refusal),
        Record::Function { number, function } => add_function(out, number, function),
        Record::Map { map, elements } => add_map(out, map, elements),
        Record::Insn {
            slot,
            insn,
            reached,
            ahead,
            aside,
        } => add_insn_record(out, alloc, slot, &insn, reached, ahead, aside),
        Record::Value {
            slot,
            to,
            register,
            value,
        } => add_known(out, slot, to, register, &value),
        Record::Read {
            slot,
            register,
            source,
        } => add_read(out, slot, register, source),
        Record::Unwritten {
            slot,
            frame,
            offset,
        } => add_unwritten(out, slot, frame, offset),
        Record::Loop(call) => add_loop(out, &call),
        Record::Pair(pair) => add_pair(out, &pair),
        Record::Grid(grid) => add_grid(out, &grid),
        Record::Cell(cell) => add_cell(out, &cell),
        Record::End { status } => add_end(out, status),
    }
}

/// The lines of records, in order: of each one object of JSON and a newline.
pub fn print_records(alloc: Global, records: &[Record]) -> Result<String, AllocError>
    ensures { IfOk result (λ text. string_bytes text ≡ flat_map printed records.now) }
{
    let mut out = String::new(alloc);
    for fact in records {
        print_record(&mut out, alloc, fact)?;
    }
    Ok(out)
}
