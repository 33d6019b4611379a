//! A program is inspected.

ghost use Rattle.std.specs.{Prelude.{◌≡◌, IfSome, IfNone, IfOk}, Option.{option_map}};
ghost use Rattle.bpf_insn_types.specs.Program.{slot_count};
ghost use Rattle.bpf_verify_model.specs.Accepted.{WithinLimits, first_fault};
ghost use Rattle.bpf_verify_origin.specs.{Edges.{slots_before}, Inspected.{broken_rule}};

use crate::fault::Fault;
use crate::finding::insns_by_slot;
use crate::inflows::inflows;
use crate::inspection::Inspection;
use bpf_insn_types::{Insn, Unit, elements_of, slot_count};
use bpf_verify::{VerifyError, insns_fit, states_before, verify};
use std::alloc::{AllocError, Global};

/// How many slots a unit has, if it is within the limits.
fn slots_within(unit: &Unit) -> Option<u32>
    ensures some { IfSome result (WithinLimits unit.now) }
    ensures none { IfNone result (WithinLimits unit.now (slot_count unit.now.insns) → ⊥) }
{
    match slot_count(&unit.insns) {
        Some(0) => None,
        Some(count) => if elements_of(&unit.sizes).is_some() {
            Some(count)
        } else {
            None
        },
        None => None,
    }
}

/// A copy of a unit. Memory may run out.
pub fn copied(alloc: Global, unit: &Unit) -> Result<Unit, AllocError>
    ensures { IfOk result (λ copy. copy ≡ unit.now) }
{
    let mut sizes: Vec<u32> = Vec::new(alloc);
    sizes.extend_from_slice(unit.sizes.as_slice())?;
    let mut insns: Vec<Insn> = Vec::new(alloc);
    insns.extend_from_slice(unit.insns.as_slice())?;
    Ok(Unit { sizes, insns })
}

/// How many slots are before the first fault: all where there is none.
fn slots_before(fault: Option<Fault>, count: u32) -> u32
    ensures { result ≡ slots_before (option_map broken_rule fault) count }
{
    match fault {
        None => count,
        Some(fault) => fault.slot,
    }
}

/// The inspection of a unit whose first fault is this.
fn with_fault(alloc: Global, unit: Unit, fault: Option<Fault>) -> Result<Inspection, AllocError>
    requires { option_map broken_rule fault ≡ first_fault unit }
    ensures { IfOk result (λ inspection. inspection ≡ unit) }
{
    insns_fit(unit.insns.as_slice());
    let by_slot = insns_by_slot(alloc, &unit.insns)?;
    let Some(count) = slots_within(&unit) else {
        return Ok(Inspection {
            unit,
            fault,
            passed: 0,
            by_slot,
            states: Vec::new(alloc),
            inflows: Vec::new(alloc),
        });
    };
    let passed = slots_before(fault, count);
    let Ok(states) = states_before(alloc, &unit.sizes, &unit.insns, count, passed) else {
        return Err(AllocError);
    };
    let inflows = inflows(alloc, &unit, &by_slot, &states, count, passed)?;
    Ok(Inspection {
        unit,
        fault,
        passed,
        by_slot,
        states,
        inflows,
    })
}

/// Inspects a unit. Memory may run out.
pub fn inspect(alloc: Global, unit: Unit) -> Result<Inspection, AllocError>
    ensures { IfOk result (λ inspection. inspection ≡ unit) }
{
    match verify(alloc, copied(alloc, &unit)?) {
        Ok(_) => with_fault(alloc, unit, None),
        Err(VerifyError::Refused { rule, slot }) => {
            with_fault(alloc, unit, Some(Fault { rule, slot }))
        }
        Err(VerifyError::Memory) => Err(AllocError),
    }
}
