//! The slots that instructions name.

ghost use Rattle.std.specs.Prelude.{◌≡◌, ◌+◌, ◌≤◌};
ghost use Rattle.bpf_insn_types.specs.declared.insn.ImmKind.TheVariants.{Code as CodeKind};
ghost use Rattle.bpf_insn_types.specs.Program.{moved, code_target, named_by};

use bpf_insn_types::{ImmKind, Insn};

/// The slot at a distance from the one after a slot, unless it would lie before slot 0.
pub fn slot_beyond(slot: u32, distance: i32) -> Option<u32>
    requires { slot ≤ 4096 }
    ensures { result ≡ moved (slot + 1) distance }
{
    let target = slot as i64 + 1 + distance as i64;
    if target < 0 {
        None
    } else {
        Some(target as u32)
    }
}

/// The slot that a code address at a slot names, past the load.
pub fn code_target(slot: u32, imm: i32) -> Option<u32>
    requires { slot ≤ 4096 }
    ensures { result ≡ code_target CodeKind slot imm }
{
    match slot_beyond(slot, imm) {
        Some(target) if slot + 1 < target => Some(target),
        _ => None,
    }
}

/// The slot that an instruction at a slot names, if it is the load of a code address.
pub fn named_by(slot: u32, insn: Insn) -> Option<u32>
    requires { slot ≤ 4096 }
    ensures { result ≡ named_by slot insn }
{
    match insn {
        Insn::LoadImm {
            kind: ImmKind::Code,
            imm,
            ..
        } => code_target(slot, imm),
        _ => None,
    }
}
