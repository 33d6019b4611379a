//! What is known of registers at a slot: their values, and where the values come from that are read.

ghost use Rattle.std.specs.{Prelude.{◌≡◌, ◌++◌, OnOk}, Option.{option_map}};
ghost use Rattle.bpf_verify_origin.specs.Inspected.{broken_rule, is_up_to};
ghost use Rattle.bpfspec_records.specs.Units.{edge_records, edges_records, is_join, other_target};
ghost use Rattle.bpfspec_records.specs.Units.{read_records, target_of, value_record, value_records};

use crate::adding::add;
use crate::reading::reads;
use crate::records::Record;
use bpf_insn_types::{Insn, Reg};
use bpf_verify_model::{AbstractValue, Edge, Outflow, State, reg};
use bpf_verify_origin::{Fault, Inflow, Inspection, state_to};
use bpf_verify_values::is_unwritten;
use std::alloc::AllocError;

/// Adds the value of a register before a slot, or on the edges from there to another, unless it is unwritten.
fn add_value(
    records: &mut Vec<Record>,
    slot: u32,
    to: Option<u32>,
    register: Reg,
    value: &AbstractValue,
) -> Result<(), AllocError>
    ensures { OnOk result (records.new.items ≡ records.old.items ++ value_record slot to register value.now) }
{
    if is_unwritten(*value) {
        return Ok(());
    }
    add(
        records,
        Record::Value {
            slot,
            to,
            register,
            value: *value,
        },
    )
}

/// Adds the values of r0 to r9 before a slot, or on the edges from there to another.
pub(crate) fn add_values(
    records: &mut Vec<Record>,
    slot: u32,
    to: Option<u32>,
    state: &State,
) -> Result<(), AllocError>
    ensures { OnOk result (records.new.items ≡ records.old.items ++ value_records slot to state.now) }
{
    for number in 0..10u8 {
        let register = reg(number);
        add_value(records, slot, to, register, &state.register(register))?;
    }
    Ok(())
}

/// Adds where the values of the registers come from that the instruction at a slot reads.
pub(crate) fn add_reads(
    records: &mut Vec<Record>,
    inspection: &Inspection,
    slot: u32,
    insn: &Insn,
) -> Result<(), AllocError>
    ensures { OnOk result (records.new.items ≡ records.old.items ++ read_records inspection.now slot insn.now) }
{
    for number in 0..11u8 {
        let register = reg(number);
        if reads(insn, register) {
            let source = inspection.source(slot, register);
            add(
                records,
                Record::Read {
                    slot,
                    register,
                    source,
                },
            )?;
        }
    }
    Ok(())
}

/// Whether a slot is one up to a fault, if there is one.
pub(crate) fn is_up_to(fault: Option<Fault>, slot: u32) -> bool
    ensures { result ≡ is_up_to (option_map broken_rule fault) slot }
{
    match fault {
        None => true,
        Some(fault) => slot <= fault.slot,
    }
}

/// Whether a slot up to the first fault is one to which edges from several slots lead.
fn is_join(inspection: &Inspection, slot: u32) -> bool
    ensures { result ≡ is_join inspection.now slot }
{
    matches!(inspection.inflow(slot), Inflow::Several) && is_up_to(inspection.fault(), slot)
}

/// The slot to which an edge leads, if it is followed.
pub(crate) fn target(edge: &Option<Edge>) -> Option<u32>
    ensures { result ≡ target_of edge.now }
{
    match edge {
        None => None,
        Some(edge) => Some(edge.target),
    }
}

/// The target of a second edge, unless it is that of the first.
fn other_target(first: Option<u32>, other: Option<u32>) -> Option<u32>
    ensures { result ≡ other_target first other }
{
    match (first, other) {
        (Some(to), Some(other)) => if to == other { None } else { Some(other) },
        _ => other,
    }
}

/// Adds, of what flows from a slot, the values on the edges to another, if that is a join.
fn add_edge(
    records: &mut Vec<Record>,
    inspection: &Inspection,
    slot: u32,
    out: &Outflow,
    to: Option<u32>,
) -> Result<(), AllocError>
    ensures { OnOk result (records.new.items ≡ records.old.items ++ edge_records inspection.now slot out.now to) }
{
    let Some(to) = to else {
        return Ok(());
    };
    if !is_join(inspection, to) {
        return Ok(());
    }
    match state_to(to, out) {
        None => Ok(()),
        Some(state) => add_values(records, slot, Some(to), &state),
    }
}

/// Adds, of what flows from a slot, the values on the edges into joins.
pub(crate) fn add_edges(
    records: &mut Vec<Record>,
    inspection: &Inspection,
    slot: u32,
    out: &Outflow,
) -> Result<(), AllocError>
    ensures { OnOk result (records.new.items ≡ records.old.items ++ edges_records inspection.now slot out.now) }
{
    let ahead = target(&out.ahead);
    let aside = target(&out.aside);
    add_edge(records, inspection, slot, out, ahead)?;
    add_edge(records, inspection, slot, out, other_target(ahead, aside))
}
