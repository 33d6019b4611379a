//! The verifier.

ghost use Rattle.std.specs.Prelude.{◌≡◌, IfOk, IfErr};
ghost use Rattle.bpf_verify_model.specs.Accepted.{first_fault, Accepted, WithinLimits};
ghost use Rattle.bpf_verify.specs.Passing.{IsFault};

use crate::callback_rows::rows_of;
use crate::counting::counts_of;
use crate::error::VerifyError;
use crate::fields::insns_fit;
use crate::layout::layout_of;
use crate::operations::fused;
use crate::passing::{Code, pass};
use crate::verified::Verified;
use bpf_insn_types::{Unit, elements_of, slot_count};
use bpf_verify_model::Rule;
use std::alloc::Global;

/// How many slots a unit has within the limits, or why it is refused (V1, V2).
#[tactic(auto, unfolding(bpf_verify_model::specs::Accepted::first_fault))]
fn slots_within(unit: &Unit) -> Result<u32, VerifyError>
    ensures ok { IfOk result (WithinLimits unit.now) }
    ensures err { IfErr result (IsFault (first_fault unit.now)) }
{
    match slot_count(&unit.insns) {
        Some(0) => Err(VerifyError::Refused {
            rule: Rule::NoSlot,
            slot: 0,
        }),
        Some(count) => if elements_of(&unit.sizes).is_some() {
            Ok(count)
        } else {
            Err(VerifyError::Refused {
                rule: Rule::OverLimits,
                slot: 0,
            })
        },
        None => Err(VerifyError::Refused {
            rule: Rule::OverLimits,
            slot: 0,
        }),
    }
}

/// Accepts a unit that breaks no rule. Else it names the first fault: the least slot, counted from 0,
/// and there the least number (see `Rule`). Memory may run out in place of either answer.
pub fn verify(alloc: Global, unit: Unit) -> Result<Verified, VerifyError>
    // What is accepted is this unit, and it breaks no rule.
    ensures ok { IfOk result (λ verified. (verified ≡ unit) × Accepted unit) }
    // What is refused is refused by its first fault.
    ensures err { IfErr result (IsFault (first_fault unit)) }
{
    let count = slots_within(&unit)?;
    let layout = layout_of(alloc, &unit.insns, count)?;
    let code = Code {
        sizes: unit.sizes.as_slice(),
        insns: unit.insns.as_slice(),
        layout: &layout,
    };
    let ops = match pass(alloc, &code, count) {
        Err(error) => return Err(error),
        Ok(ops) => ops,
    };
    let fast = fused(alloc, &ops)?;
    let counts = counts_of(alloc, &unit.insns, count, &layout.starts)?;
    insns_fit(&unit.insns);
    let rows = rows_of(alloc, &ops, &layout.starts)?;
    Ok(Verified {
        unit,
        starts: layout.starts,
        counts,
        ops,
        fast,
        rows,
    })
}
