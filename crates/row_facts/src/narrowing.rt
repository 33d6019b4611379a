//! Masks that are in others, or have no lane in common with them.

ghost use Rattle.std.specs.Prelude.{◌≡◌, ◌≤◌, true, slice_get, IfSome};
ghost use Rattle.row_facts.specs.Narrower.{AreMasksApart, IsNarrower};

use row_list::RowOp;

/// The operation at a position.
pub(crate) fn op_at(list: &[RowOp], k: usize) -> Option<RowOp>
    ensures { result ≡ slice_get list.now k }
{
    list.get(k).copied()
}

/// The mask of which an operation takes some lanes.
#[tactic(auto, using(crate::proofs::NarrowLaws::holds_narrower, crate::proofs::NarrowLaws::without_narrower))]
pub(crate) fn wider(list: &[RowOp], mask: usize) -> Option<usize>
    ensures { IfSome result (λ other. IsNarrower list.now mask other) }
{
    match op_at(list, mask) {
        Some(RowOp::Holds { mask: other, .. }) => Some(other),
        Some(RowOp::Without { mask: other, .. }) => Some(other),
        _ => None,
    }
}

/// Whether a mask was made of lanes of another, as the operations say it.
#[tactic(auto, using(crate::proofs::NarrowLaws::all_narrower))]
fn is_taken_from(list: &[RowOp], mask: usize, other: usize) -> bool
    ensures { result ≡ true → IsNarrower list.now mask other }
{
    if let Some(RowOp::All) = op_at(list, other) {
        return true;
    }
    let mut at = mask;
    while at > other {
        let Some(next) = wider(list, at) else {
            return false;
        };
        if next >= at {
            return false;
        }
        at = next;
    }
    at == other
}

/// Whether all lanes of a mask are in another, as far as the operations say it that made it of others.
#[tactic(auto, using(crate::proofs::NarrowLaws::same_narrower))]
#[inline(always)]
pub fn is_narrower(list: &[RowOp], mask: usize, other: usize) -> bool
    ensures { result ≡ true → IsNarrower list.now mask other }
{
    if mask == other {
        return true; // mostly
    }
    is_taken_from(list, mask, other)
}

/// Whether no lane is in both of two masks, as far as the operations say it that made them of others. The one that was
/// made later is looked at first. The work is bounded by a number of steps.
#[tactic(auto, using(crate::proofs::NarrowLaws::apart_turned, crate::proofs::NarrowLaws::apart_without, crate::proofs::NarrowLaws::never_in_narrower, crate::proofs::NarrowLaws::never_in_either))]
pub(crate) fn are_masks_apart(list: &[RowOp], one: usize, other: usize, steps: u32) -> bool
    ensures { result ≡ true → AreMasksApart list.now one other }
{
    if steps == 0 {
        return false;
    }
    if one < other {
        return are_masks_apart(list, other, one, steps - 1);
    }
    match op_at(list, one) {
        Some(RowOp::Either { first, second }) => {
            are_masks_apart(list, first, other, steps / 2)
                && are_masks_apart(list, second, other, steps / 2)
        }
        Some(RowOp::Without { other: without, .. }) if is_narrower(list, other, without) => true,
        _ => match wider(list, one) {
            Some(mask) => are_masks_apart(list, mask, other, steps - 1),
            None => false,
        },
    }
}
