//! The marks of several blocks, merged, and what follows from them.

ghost use Rattle.std.specs.{Prelude.{◌≡◌, ◌<◌, map, length, slice_index, IfOk}, List.{All}};
ghost use Rattle.array_maps.specs.declared.access.Op.{Op as Operator};
ghost use Rattle.loop_core_block.specs.Shown.{shown};
ghost use Rattle.shadow_marks.specs.Standing.{ArePlanes, plane_by};
ghost use Rattle.loop_core_gather.specs.Held.{is_reduction as is_reduced, AreInOne, HavePlanes, HaveCopiesOf};

use lane_planes::merge_touched;
use loop_core_block::Block;
use loop_core_model::Test;
use shadow_marks::{OperatorPlanes, Planes, is_set};
use std::alloc::{AllocError, Global};

/// The lanes of a vector.
const LANES: usize = 8;

/// The planes of the blocks at these places, in one. All are for n elements and one test. Those of one block alone are
/// taken out of it, and those of several merged.
pub(crate) fn planes_in_one(
    alloc: Global,
    elements: u32,
    test: Test,
    blocks: &mut [Block],
    places: &[usize],
) -> Result<Planes, AllocError>
    requires places { All (λ place. place < length blocks.old) places.now }
    requires planes { All (λ b. HavePlanes elements test (shown b)) blocks.old }
    ensures in_one { IfOk result (AreInOne elements test (map shown blocks.old) places.now) }
    ensures copies { HaveCopiesOf (map shown blocks.old) (map shown blocks.new) }
{
    if places.len() == 1 {
        return Ok(blocks[places[0]].take_planes(alloc));
    }
    let mut planes = Planes::try_new(alloc, elements, test)?;
    for place in places {
        merge_touched::<LANES>(&mut planes, blocks[*place].planes());
    }
    Ok(planes)
}

/// Whether an element is reduction-only: no plain access was made of it, and it was reduced by one operator.
pub(crate) fn is_reduction(planes: &Planes, e: u32) -> bool
    requires whole { ArePlanes planes.now }
    requires within { e < planes.now.elements }
    ensures { result ≡ is_reduced planes.now e }
{
    if is_set(planes.plain.as_slice(), e) {
        return false;
    }
    let operators = &planes.operators;
    let reduced = u32::from(is_set(operators.add.as_slice(), e))
        + u32::from(is_set(operators.or.as_slice(), e))
        + u32::from(is_set(operators.and.as_slice(), e))
        + u32::from(is_set(operators.xor.as_slice(), e))
        + u32::from(is_set(operators.addh.as_slice(), e));
    reduced == 1
}

/// Which elements of a page were reduced, a bit for each.
pub(crate) fn reduced_in_page(planes: &OperatorPlanes, page: u32) -> u64
    requires { (op : Operator) → page < length (plane_by planes.now op) }
    ensures { result ≡ 0 → (op : Operator) → slice_index (plane_by planes.now op) page ≡ 0 }
{
    let page = page as usize;
    planes.add[page] | planes.or[page] | planes.and[page] | planes.xor[page] | planes.addh[page]
}
