//! The masks in whose lanes a value isn't 0.

ghost use Rattle.std.specs.Prelude.{◌≡◌, ℕ, true, IfOk, slice_get, Some};
ghost use Rattle.row_list.specs.declared.row_op.RowOp.TheVariants.{Number};
ghost use Rattle.row_facts.specs.Nonzero.{IsNonzeroIn, IsNullTest, AreNonzeroIn};

use crate::narrowing::{op_at, wider};
use bpf_insn_types::{Compare, Width};
use row_list::RowOp;
use std::alloc::{AllocError, Global};

/// Whether a value is the number 0.
fn is_zero(ops: &[RowOp], value: usize) -> bool
    ensures { result ≡ true → slice_get ops.now value ≡ Some (Number 0) }
{
    match op_at(ops, value) {
        Some(RowOp::Number(n)) => n == 0,
        _ => false,
    }
}

/// Whether a mask is one of those where a value isn't 0, as far as these are known.
fn is_known(masks: &[bool], mask: usize) -> bool
    ensures { result ≡ true → slice_get masks.now mask ≡ Some true }
{
    mask < masks.len() && masks[mask]
}

/// Whether a mask is that of the lanes of another where a value is 0.
#[tactic(auto, using(crate::proofs::NonzeroLaws::of_null))]
fn is_null_test(ops: &[RowOp], test: usize, within: usize, value: usize) -> bool
    ensures { result ≡ true → IsNullTest ops.now test within value }
{
    match op_at(ops, test) {
        Some(
            RowOp::Holds {
                mask,
                width: Width::W64,
                compare: Compare::Eq,
                first,
                second,
            },
        ) => mask == within && first == value && is_zero(ops, second),
        _ => false,
    }
}

/// Whether a mask was made of lanes where a value isn't 0, by the masks before it.
#[tactic(auto, using(crate::proofs::NarrowLaws::never_in_narrower))]
fn is_made_of_nonzero(ops: &[RowOp], k: usize, masks: &[bool], value: usize) -> bool
    ensures { result ≡ true → AreNonzeroIn ops.now masks.now value → IsNonzeroIn ops.now k value }
{
    match wider(ops, k) {
        Some(mask) => is_known(masks, mask),
        None => false,
    }
}

/// Whether a value isn't 0 in the lanes of the mask that an operation makes, by the masks before it.
#[tactic(auto, using(crate::proofs::NonzeroLaws::of_test, crate::proofs::NonzeroLaws::of_without, crate::proofs::NarrowLaws::never_in_either))]
fn is_nonzero_in(ops: &[RowOp], k: usize, masks: &[bool], value: usize) -> bool
    ensures { result ≡ true → AreNonzeroIn ops.now masks.now value → IsNonzeroIn ops.now k value }
{
    if is_made_of_nonzero(ops, k, masks, value) {
        return true;
    }
    match op_at(ops, k) {
        Some(
            RowOp::Holds {
                width: Width::W64,
                compare: Compare::Ne,
                first,
                second,
                ..
            },
        ) => first == value && is_zero(ops, second),
        Some(RowOp::Without { mask, other }) => is_null_test(ops, other, mask, value),
        Some(RowOp::Either { first, second }) => is_known(masks, first) && is_known(masks, second),
        _ => false,
    }
}

/// Of each operation of a list, whether it makes a mask in whose lanes a value isn't 0. It fails where memory runs out.
fn masks_without_zero(alloc: Global, ops: &[RowOp], value: usize) -> Result<Vec<bool>, AllocError>
    ensures { IfOk result (λ masks. AreNonzeroIn ops.now masks.items value) }
{
    let mut masks = Vec::new(alloc);
    for k in 0..ops.len() {
        let known = is_nonzero_in(ops, k, &masks, value);
        masks.push(known)?;
    }
    Ok(masks)
}

/// Whether a value isn't 0 in the lanes of a mask. It fails where memory runs out.
pub(crate) fn is_nonzero(
    alloc: Global,
    ops: &[RowOp],
    mask: usize,
    value: usize,
) -> Result<bool, AllocError>
    ensures { IfOk result (λ known. known ≡ true → IsNonzeroIn ops.now mask value) }
{
    let masks = masks_without_zero(alloc, ops, value)?;
    Ok(is_known(&masks, mask))
}
