//! The records of a unit: its maps, and its instructions up to the first fault.

ghost use Rattle.std.specs.Prelude.{◌≡◌, ◌++◌, true, Some, is_some, OnOk};
ghost use Rattle.bpf_insn_types.specs.Program.{insn_at};
ghost use Rattle.bpf_verify_model.specs.Accepted.{first_fault};
ghost use Rattle.bpf_verify_origin.specs.Inspected.{is_up_to};
ghost use Rattle.bpfspec_records.specs.Units.{insn_records, known_before, map_records, slot_records};
ghost use Rattle.bpfspec_records.specs.Units.{unit_records, unwritten_records};

use crate::adding::add;
use crate::known::{add_edges, add_reads, add_values, is_up_to, target};
use crate::records::Record;
use crate::unwritten::add_unwritten_bytes;
use bpf_insn_types::{Insn, slots};
use bpf_verify_model::{Rule, State};
use bpf_verify_origin::Inspection;
use std::alloc::AllocError;

/// Adds the maps.
fn add_maps(records: &mut Vec<Record>, sizes: &[u32]) -> Result<(), AllocError>
    ensures { OnOk result (records.new.items ≡ records.old.items ++ map_records 0 sizes.now) }
{
    for (map, elements) in sizes.iter().enumerate() {
        add(
            records,
            Record::Map {
                map,
                elements: *elements,
            },
        )?;
    }
    Ok(())
}

/// What is known before a slot up to the first fault where an instruction starts.
fn known_before(inspection: &Inspection, slot: u32) -> Option<State>
    requires starts { is_some (insn_at inspection.now.insns slot) ≡ true }
    requires up_to { is_up_to (first_fault inspection.now) slot ≡ true }
    ensures { result ≡ known_before inspection.now slot }
{
    inspection.state(slot)
}

/// Adds the instruction that starts at a slot up to the first fault, and what is known there if it is asked for.
fn add_insn(
    records: &mut Vec<Record>,
    inspection: &Inspection,
    slot: u32,
    insn: &Insn,
    with_values: bool,
) -> Result<(), AllocError>
    requires starts { insn_at inspection.now.insns slot ≡ Some insn.now }
    requires up_to { is_up_to (first_fault inspection.now) slot ≡ true }
    ensures { OnOk result (records.new.items
        ≡ records.old.items ++ slot_records with_values inspection.now slot insn.now) }
{
    let before = known_before(inspection, slot);
    let out = inspection.flow(slot);
    add(
        records,
        Record::Insn {
            slot,
            insn: *insn,
            reached: before.is_some(),
            ahead: target(&out.ahead),
            aside: target(&out.aside),
        },
    )?;
    if !with_values {
        return Ok(());
    }
    let Some(state) = &before else {
        return Ok(());
    };
    add_values(records, slot, None, state)?;
    add_reads(records, inspection, slot, insn)?;
    add_edges(records, inspection, slot, &out)
}

/// Adds the instructions up to the first fault.
fn add_insns(
    records: &mut Vec<Record>,
    inspection: &Inspection,
    insns: &[Insn],
    with_values: bool,
) -> Result<(), AllocError>
    requires { insns.now ≡ inspection.now.insns }
    ensures { OnOk result (records.new.items
        ≡ records.old.items ++ insn_records with_values inspection.now 0 insns.now) }
{
    let fault = inspection.fault();
    let mut slot: u32 = 0;
    for insn in insns {
        if !is_up_to(fault, slot) {
            return Ok(());
        }
        add_insn(records, inspection, slot, insn, with_values)?;
        slot += slots(insn);
    }
    Ok(())
}

/// Adds the unwritten bytes that the first fault is about, if it is one of V20.
fn add_unwritten(records: &mut Vec<Record>, inspection: &Inspection) -> Result<(), AllocError>
    ensures { OnOk result (records.new.items
        ≡ records.old.items ++ unwritten_records inspection.now (first_fault inspection.now)) }
{
    let Some(fault) = inspection.fault() else {
        return Ok(());
    };
    if !matches!(fault.rule, Rule::UnwrittenByte) {
        return Ok(());
    }
    let Some(insn) = inspection.insn(fault.slot) else {
        return Ok(());
    };
    match known_before(inspection, fault.slot) {
        None => Ok(()),
        Some(state) => add_unwritten_bytes(records, fault.slot, &insn, &state),
    }
}

/// Adds the records of a unit: its maps; each instruction up to the first fault; and where the unit is refused, or
/// where the states are asked for, with each instruction what the registers may have there. Memory may run out.
pub fn add_unit_records(
    records: &mut Vec<Record>,
    inspection: &Inspection,
    states: bool,
) -> Result<(), AllocError>
    ensures { OnOk result (records.new.items ≡ records.old.items ++ unit_records states inspection.now) }
{
    let with_values = states || inspection.fault().is_some();
    add_maps(records, inspection.sizes())?;
    let insns = inspection.unit().insns.as_slice();
    add_insns(records, inspection, insns, with_values)?;
    add_unwritten(records, inspection)
}
