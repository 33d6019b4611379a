//! The abstract states before the instructions of a program, up to its first fault.

ghost use Rattle.std.specs.Prelude.{◌≡◌, ◌<◌, ◌≤◌, length, slice_set, IfOk, IfErr, None};
ghost use Rattle.bpf_insn_types.specs.Program.{slot_count};
ghost use Rattle.bpf_verify_model.specs.Accepted.{fault_within};
ghost use Rattle.bpf_verify.specs.States.{AreStatesBefore};

use crate::error::VerifyError;
use crate::table::{first_table, known, propagate_reached};
use bpf_insn_types::{Insn, slots};
use bpf_verify_model::State;
use std::alloc::Global;

/// Keeps the abstract state before a slot.
fn put_state(states: &mut Vec<Option<State>>, slot: u32, before: &Option<State>)
    requires { slot < length states.old.items }
    ensures { states.new.items ≡ slice_set states.old.items slot before.now }
{
    states[slot as usize] = *before;
}

/// The abstract state before each slot up to the last where an instruction starts, of a program in which no
/// slot before the last breaks a rule. Where no instruction starts it is of no meaning.
pub fn states_before(
    alloc: Global,
    sizes: &[u32],
    insns: &[Insn],
    count: u32,
    last: u32,
) -> Result<Vec<Option<State>>, VerifyError>
    requires slots { slot_count insns.now ≡ count }
    requires some { 0 < count }
    requires few { count ≤ 4096 }
    requires fine { fault_within (record { sizes = sizes.now; insns = insns.now }) last ≡ None }
    ensures ok { IfOk result (λ states. AreStatesBefore (record { sizes = sizes.now; insns = insns.now }) last
        states.items) }
    ensures err { IfErr result (λ e. e ≡ VerifyError.Memory) }
{
    let mut table = first_table(alloc, count)?;
    let mut states = first_table(alloc, count)?;
    let mut slot = 0;
    for insn in insns {
        let mut before = known(&table, slot);
        put_state(&mut states, slot, &before);
        if last <= slot {
            return Ok(states);
        }
        propagate_reached(&mut table, sizes, slot, &mut before, *insn);
        slot += slots(insn);
    }
    Ok(states)
}
