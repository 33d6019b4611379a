//! The records of loops.

ghost use Rattle.std.specs.{Prelude.{◌≡◌, ◌++◌, OnOk}, String.{string_bytes}};
ghost use Rattle.bpfspec_records.specs.{LoopsPrinted.{place_fields, strategy_fields, way_fields}, Printed.{printed}};
ghost use Rattle.bpfspec_records.specs.Words.{blocks_word};
ghost use Rattle.bpfspec_records.specs.declared.records.Record.TheVariants as records;

use crate::fields::{add_number, add_optional, add_signed, add_wide, add_word, begin, end};
use crate::loop_facts::{CellFact, GridFact, LoopFact, PairFact};
use crate::optional::widened;
use loop_core_model::Verdict;
use loop_core_split::{BlocksReason, Strategy};
use loop_core_witness::Place;
use std::alloc::AllocError;

/// Why a loop went by blocks.
fn blocks_word(why: BlocksReason) -> &'static str
    ensures { result.now ≡ blocks_word why }
{
    match why {
        BlocksReason::Asked => "asked",
        BlocksReason::Lrpd => "lrpd",
        BlocksReason::Work => "work",
        BlocksReason::ReadsWritten => "reads_written",
    }
}

/// Adds the fields of a way: its word, how many blocks and workers it has, and why a loop goes so.
#[tactic(auto, unfolding(crate::specs::LoopsPrinted::strategy_fields))]
fn add_strategy(
    out: &mut String,
    way: &str,
    blocks: Option<u32>,
    workers: u32,
    reason: &str,
) -> Result<(), AllocError>
    ensures { OnOk result (string_bytes out.new
        ≡ string_bytes out.old ++ strategy_fields way.now blocks workers reason.now) }
{
    add_word(out, "way", way)?;
    add_optional(out, "blocks", widened(blocks))?;
    add_number(out, "workers", u64::from(workers))?;
    add_word(out, "reason", reason)
}

/// Adds which way a loop goes.
#[tactic(auto, unfolding(crate::specs::LoopsPrinted::way_fields))]
fn add_way(out: &mut String, strategy: Option<Strategy>) -> Result<(), AllocError>
    ensures { OnOk result (string_bytes out.new ≡ string_bytes out.old ++ way_fields strategy) }
{
    match strategy {
        None => {
            add_optional(out, "way", None)?;
            add_optional(out, "blocks", None)?;
            add_optional(out, "workers", None)?;
            add_optional(out, "reason", None)
        }
        Some(Strategy::InOrder) => add_strategy(out, "in_order", None, 1, "asked"),
        Some(Strategy::Sums { workers }) => add_strategy(
            out,
            "sums",
            None,
            workers,
            "only_reduces",
        ),
        Some(Strategy::Watched) => add_strategy(out, "watched", None, 1, "reads_nothing_written"),
        Some(
            Strategy::Blocks {
                blocks,
                workers,
                why,
            },
        ) => add_strategy(out, "blocks", Some(blocks), workers, blocks_word(why)),
    }
}

/// Adds an iteration and a slot in it, if there are any.
#[tactic(auto, unfolding(crate::specs::LoopsPrinted::place_fields))]
fn add_place(
    out: &mut String,
    index: &str,
    slot: &str,
    place: Option<Place>,
) -> Result<(), AllocError>
    ensures { OnOk result (string_bytes out.new ≡ string_bytes out.old ++ place_fields index.now slot.now place) }
{
    match place {
        None => {
            add_optional(out, index, None)?;
            add_optional(out, slot, None)
        }
        Some(place) => {
            add_number(out, index, u64::from(place.index))?;
            add_number(out, slot, u64::from(place.slot))
        }
    }
}

/// Adds a call of a loop.
#[tactic(auto, unfolding(crate::specs::Printed::printed, crate::specs::LoopsPrinted::printed_loop))]
pub(crate) fn add_loop(out: &mut String, fact: &LoopFact) -> Result<(), AllocError>
    ensures { OnOk result (string_bytes out.new ≡ string_bytes out.old ++ printed (records.Loop fact.now)) }
{
    begin(out, "loop")?;
    add_number(out, "loop", fact.number as u64)?;
    add_number(out, "slot", u64::from(fact.line.slot))?;
    add_number(out, "iterations", u64::from(fact.iterations))?;
    add_wide(out, "flags", fact.flags)?;
    add_signed(out, "answer", fact.line.answer)?;
    let (verdict, conflicts) = match fact.line.verdict {
        Verdict::Parallel => ("parallel", Some(0)),
        Verdict::Conflict { count, .. } => ("conflict", Some(u64::from(count))),
        Verdict::Refused => ("refused", None),
        Verdict::InOrder => ("in_order", None),
    };
    add_word(out, "verdict", verdict)?;
    add_optional(out, "conflicts", conflicts)?;
    add_way(out, fact.strategy)?;
    add_place(out, "break_iteration", "break_slot", fact.broke)?;
    end(out)
}

/// Adds two iterations that conflict.
#[tactic(auto, unfolding(crate::specs::Printed::printed, crate::specs::LoopsPrinted::printed_pair))]
pub(crate) fn add_pair(out: &mut String, fact: &PairFact) -> Result<(), AllocError>
    ensures { OnOk result (string_bytes out.new ≡ string_bytes out.old ++ printed (records.Pair fact.now)) }
{
    begin(out, "pair")?;
    add_number(out, "loop", fact.number as u64)?;
    add_number(out, "map", fact.map as u64)?;
    add_number(out, "element", u64::from(fact.element))?;
    add_place(out, "writer", "writer_slot", Some(fact.pair.writer))?;
    add_place(out, "reader", "reader_slot", Some(fact.pair.reader))?;
    add_place(out, "end", "end_slot", fact.end)?;
    end(out)
}

/// Adds the iterations that a picture shows.
#[tactic(auto, unfolding(crate::specs::Printed::printed, crate::specs::LoopsPrinted::printed_grid))]
pub(crate) fn add_grid(out: &mut String, fact: &GridFact) -> Result<(), AllocError>
    ensures { OnOk result (string_bytes out.new ≡ string_bytes out.old ++ printed (records.Grid fact.now)) }
{
    begin(out, "grid")?;
    add_number(out, "loop", fact.number as u64)?;
    add_number(out, "lower", u64::from(fact.lower.from))?;
    add_number(out, "lower_past", u64::from(fact.lower.past))?;
    add_number(out, "upper", u64::from(fact.upper.from))?;
    add_number(out, "upper_past", u64::from(fact.upper.past))?;
    end(out)
}

/// Adds what an iteration does at an element.
#[tactic(auto, unfolding(crate::specs::Printed::printed, crate::specs::LoopsPrinted::printed_cell))]
pub(crate) fn add_cell(out: &mut String, fact: &CellFact) -> Result<(), AllocError>
    ensures { OnOk result (string_bytes out.new ≡ string_bytes out.old ++ printed (records.Cell fact.now)) }
{
    begin(out, "cell")?;
    add_number(out, "loop", fact.number as u64)?;
    add_number(out, "iteration", u64::from(fact.iteration))?;
    add_number(out, "map", fact.map as u64)?;
    add_number(out, "element", u64::from(fact.element))?;
    add_optional(out, "write", widened(fact.slots.write))?;
    add_optional(out, "read", widened(fact.slots.read))?;
    let reduce = match fact.slots.reduce {
        None => None,
        Some(first) => Some(u64::from(first.slot)),
    };
    add_optional(out, "reduce", reduce)?;
    end(out)
}
