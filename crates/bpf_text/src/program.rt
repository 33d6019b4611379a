//! The instructions of a unit's lines.

ghost use Rattle.std.specs.Prelude.{◌≡◌, ◌≤◌, [], IfOk, if◌then◌else◌, Ok, Err};
ghost use Rattle.bpf_insn_types.specs.{Outcome.{MatchesUnlessMemory}, Program.{slot_count}};
ghost use Rattle.bpf_text_lex.specs.Refusals.{at_line, text_refusal};
ghost use Rattle.bpf_text_operands.specs.{LabelTable.{label_named, label_slots}, Statements.{insn_of_line}};
ghost use Rattle.bpf_text.specs.AssemblerText.{label_at, in_limit, line_at, insns_behind, Adds};

use crate::label::label_name;
use bpf_insn_types::{Insn, MAX_SLOTS, slots};
use bpf_text_lex::{Lines, TextError, TextFault};
use bpf_text_operands::{Labels, read_insn};
use std::alloc::Global;

/// Whether the label line of this number repeats the label of another line.
fn repeats(labels: &Labels<'_>, name: &[u8], number: u32) -> bool
    ensures { (if result then Err TextFault.RepeatedLabel else Ok []) ≡ label_at number
        (label_named labels.now name.now) }
{
    match labels.get(name) {
        Some(label) => label.line != number,
        None => false,
    }
}

/// Adds the instruction of a line to others, and gives the slot after it.
fn add_insn(
    insns: &mut Vec<Insn>,
    content: &[u8],
    number: u32,
    labels: &Labels<'_>,
    slot: u32,
) -> Result<u32, TextError>
    requires { slot ≤ 4096 }
    ensures adds { Adds insns.old.items insns.new.items slot result
        (at_line number (in_limit slot (insn_of_line (label_slots labels.now) slot content.now))) }
    ensures bound { IfOk result (λ next. next ≤ 4096) }
{
    let insn = match read_insn(content, labels, slot) {
        Ok(insn) => insn,
        Err(fault) => return Err(fault.at(number)),
    };
    let next = slot + slots(&insn);
    if next > MAX_SLOTS {
        return Err(TextFault::TooLong.at(number));
    }
    insns.extend_from_slice(&[insn])?;
    Ok(next)
}

/// Adds what a line gives to the instructions before it, and gives the slot after it.
fn add_line(
    insns: &mut Vec<Insn>,
    content: &[u8],
    number: u32,
    labels: &Labels<'_>,
    slot: u32,
) -> Result<u32, TextError>
    requires { slot ≤ 4096 }
    ensures adds { Adds insns.old.items insns.new.items slot result
        (at_line number (line_at (label_named labels.now) slot number content.now)) }
    ensures bound { IfOk result (λ next. next ≤ 4096) }
{
    match label_name(content) {
        Some(name) if repeats(labels, name, number) => Err(TextFault::RepeatedLabel.at(number)),
        Some(_) => Ok(slot),
        None => add_insn(insns, content, number, labels, slot),
    }
}

/// The instructions of lines, where these are the labels.
pub(crate) fn read_insns(
    alloc: Global,
    lines: Lines<'_>,
    labels: &Labels<'_>,
) -> Result<Vec<Insn>, TextError>
    ensures { MatchesUnlessMemory text_refusal (λ v. v.items) result (insns_behind (label_named labels.now) []
        lines.entry) }
{
    let mut lines = lines;
    let mut insns = Vec::new(alloc);
    let mut slot = 0;
    while let Some(line) = lines.next() {
        slot = add_line(&mut insns, line.content, line.number, labels, slot)?;
    }
    Ok(insns)
}
