//! The records of refusals.

ghost use Rattle.std.specs.{Prelude.{◌≡◌, ◌++◌, codes, OnOk}, String.{string_bytes}};
ghost use Rattle.bpfspec_records.specs.{Fields.{word}, Printed.{printed}};
ghost use Rattle.bpfspec_records.specs.Refusals.{refusal_code, refusal_name, refused_event, refused_line};
ghost use Rattle.bpfspec_records.specs.Refusals.{refused_section, refused_slot};
ghost use Rattle.bpfspec_records.specs.declared.records.Record.TheVariants as records;

use crate::fields::{add_optional, add_word, begin, end};
use crate::words::{codec_fault_name, rule_name, text_fault_name};
use bpfspec_output::{Refusal, Section, section_name};
use loop_core_model::{ReplayFault, SplitFault};
use std::alloc::AllocError;

/// The section that is refused.
fn section_of(refusal: Refusal) -> Section
    ensures { result ≡ refused_section refusal }
{
    match refusal {
        Refusal::Text { section, .. } => section,
        Refusal::Codec { .. } | Refusal::Rule { .. } | Refusal::Plan => Section::Unit,
        Refusal::Sizes => Section::Maps,
        Refusal::NoLoop | Refusal::Split(_) | Refusal::Schedule(_) => Section::Events,
    }
}

/// Adds the code of a refusal.
#[tactic(auto, unfolding(crate::specs::Fields::word))]
fn add_code(out: &mut String, refusal: Refusal) -> Result<(), AllocError>
    ensures { OnOk result (string_bytes out.new ≡ string_bytes out.old ++ word (codes "code") (refusal_code refusal)) }
{
    match refusal {
        Refusal::Text { fault, .. } => write!(out, ",\"code\":\"A{}\"", fault.number()),
        Refusal::Codec { fault, .. } => write!(out, ",\"code\":\"I{}\"", fault.number()),
        Refusal::Rule { rule, .. } => write!(out, ",\"code\":\"V{}\"", rule.number()),
        Refusal::Sizes => add_word(out, "code", "P1"),
        Refusal::Plan => add_word(out, "code", "P2"),
        Refusal::NoLoop => add_word(out, "code", "no_loop"),
        Refusal::Split(SplitFault::Falling) => add_word(out, "code", "S1"),
        Refusal::Split(SplitFault::Number) => add_word(out, "code", "S2"),
        Refusal::Split(SplitFault::Ends) => add_word(out, "code", "S3"),
        Refusal::Schedule(ReplayFault::NoSuchWorker { .. }) => add_word(out, "code", "E1"),
        Refusal::Schedule(ReplayFault::NotEnabled { .. }) => add_word(out, "code", "E2"),
        Refusal::Schedule(ReplayFault::NotEnded { .. }) => add_word(out, "code", "E3"),
    }
}

/// The name of a refusal: that of its fault.
fn name_of(refusal: Refusal) -> &'static str
    ensures { result.now ≡ refusal_name refusal }
{
    match refusal {
        Refusal::Text { fault, .. } => text_fault_name(fault),
        Refusal::Codec { fault, .. } => codec_fault_name(fault),
        Refusal::Rule { rule, .. } => rule_name(rule),
        Refusal::Sizes => "sizes",
        Refusal::Plan => "plan",
        Refusal::NoLoop => "no_loop",
        Refusal::Split(SplitFault::Falling) => "falling",
        Refusal::Split(SplitFault::Number) => "number",
        Refusal::Split(SplitFault::Ends) => "ends",
        Refusal::Schedule(ReplayFault::NoSuchWorker { .. }) => "no_such_worker",
        Refusal::Schedule(ReplayFault::NotEnabled { .. }) => "not_enabled",
        Refusal::Schedule(ReplayFault::NotEnded { .. }) => "not_ended",
    }
}

/// Where a refusal is: a line of a text, a slot, and an event, or how many haven't ended.
fn place_of(refusal: Refusal) -> (Option<u64>, Option<u64>, Option<u64>)
    ensures line { result.0 ≡ refused_line refusal }
    ensures slot { result.1 ≡ refused_slot refusal }
    ensures event { result.2 ≡ refused_event refusal }
{
    match refusal {
        Refusal::Text { line, .. } => (Some(u64::from(line)), None, None),
        Refusal::Codec { slot, .. } => (None, Some(slot as u64), None),
        Refusal::Rule { slot, .. } => (None, Some(u64::from(slot)), None),
        Refusal::Schedule(
            ReplayFault::NoSuchWorker { event } | ReplayFault::NotEnabled { event },
        ) => (None, None, Some(event as u64)),
        Refusal::Schedule(ReplayFault::NotEnded { events }) => (None, None, Some(events as u64)),
        _ => (None, None, None),
    }
}

/// Adds the record of a refusal: what is refused, why, and where it is.
#[tactic(auto, unfolding(crate::specs::Printed::printed, crate::specs::Refusals::printed_refusal))]
pub(crate) fn add_refusal(out: &mut String, refusal: Refusal) -> Result<(), AllocError>
    ensures { OnOk result (string_bytes out.new ≡ string_bytes out.old ++ printed (records.Refusal refusal)) }
{
    begin(out, "refusal")?;
    add_word(out, "section", section_name(section_of(refusal)))?;
    add_code(out, refusal)?;
    add_word(out, "name", name_of(refusal))?;
    let (line, slot, event) = place_of(refusal);
    add_optional(out, "line", line)?;
    add_optional(out, "slot", slot)?;
    add_optional(out, "event", event)?;
    end(out)
}
