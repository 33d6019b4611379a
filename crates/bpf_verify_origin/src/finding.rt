//! The instructions by the slots at which they start: a table, made in one pass.

ghost use Rattle.std.specs.Prelude.{◌≡◌, slice_index_or, None, IfOk};
ghost use Rattle.bpf_verify_origin.specs.Inspected.{AreInsns};

use bpf_insn_types::{Insn, slots};
use std::alloc::{AllocError, Global};

/// For each slot the instruction that starts there, if one does.
pub(crate) fn insns_by_slot(alloc: Global, insns: &[Insn]) -> Result<Vec<Option<Insn>>, AllocError>
    ensures { IfOk result (λ table. AreInsns insns.now table.items) }
{
    let mut table: Vec<Option<Insn>> = Vec::new(alloc);
    for insn in insns {
        let both = [Some(*insn), None];
        table.extend_from_slice(&both[..slots(insn) as usize])?;
    }
    Ok(table)
}

/// The instruction that starts at a slot, if one does, of those at all slots.
pub(crate) fn insn_in(table: &[Option<Insn>], slot: u32) -> Option<Insn>
    ensures { result ≡ slice_index_or table.now slot None }
{
    table.get(slot as usize).copied().unwrap_or(None)
}
