//! What the verifier says of units that no text spells.

use crate::tests::asserts::assert_same;
use bpf_insn_types::{AluOp, Insn, Operand, Reg, Unit, Width};
use bpf_verify::{Rule, Verified, VerifyError, verify};
use std::alloc::Global;
use std::process::Abort;
use std::test::Fail;

fn reg(number: u8) -> Result<Reg, Fail> {
    Ok(Reg::new(number).ok_or("no such register")?)
}

fn mov(dst: u8, operand: Operand) -> Result<Insn, Fail> {
    Ok(Insn::Alu {
        width: Width::W64,
        op: AluOp::Mov,
        dst: reg(dst)?,
        operand,
    })
}

fn verdict(alloc: Global, sizes: &[u32], insns: &[Insn]) -> Result<Verified, VerifyError> {
    let unit = Unit {
        sizes: sizes.to_vec(alloc)?,
        insns: insns.to_vec(alloc)?,
    };
    verify(alloc, unit)
}

/// Asserts that a unit is refused by a rule at a slot, or accepted where there is none.
fn breaks(
    rt: &impl Abort,
    alloc: Global,
    sizes: &[u32],
    insns: &[Insn],
    rule: Option<(Rule, u32)>,
) {
    let refusal = match rule {
        Some((rule, slot)) => Some(VerifyError::Refused { rule, slot }),
        None => None,
    };
    assert_same(rt, verdict(alloc, sizes, insns).err(), refusal);
}

#[test]
fn maps_have_limits(rt: HostRuntime) -> Result<(), Fail> {
    let end = [mov(0, Operand::Imm(0))?, Insn::Exit];
    for sizes in [[1; 16].as_slice(), &[65_536], &[65_535, 1]] {
        breaks(&rt, rt.alloc(), sizes, &end, None);
    }
    for sizes in [
        [1; 17].as_slice(),
        &[],
        &[0],
        &[1, 0],
        &[65_537],
        &[65_536, 1],
    ] {
        breaks(&rt, rt.alloc(), sizes, &end, Some((Rule::OverLimits, 0)));
    }
    Ok(())
}
