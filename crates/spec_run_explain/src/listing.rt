//! The elements of a plane.

ghost use Rattle.std.specs.Prelude.{◌≡◌, ◌<◌, ◌≤◌, ◌/◌, if◌then◌else◌, [], ◌∷◌, ◌++◌, length, take, IfOk, OnOk};
ghost use Rattle.loop_core_model.specs.Planes.{bit_of, elements_in_plane};

use shadow_marks::is_set;
use std::alloc::{AllocError, Global};

/// Adds an element, if its bit is set in a plane.
fn add_if_set(elements: &mut Vec<u32>, plane: &[u64], e: u32) -> Result<(), AllocError>
    requires within { e / 64 < length plane.now }
    ensures { OnOk result (elements.new.items ≡ elements.old.items
        ++ (if bit_of plane.now e then e ∷ [] else [])) }
{
    if is_set(plane, e) {
        elements.push(e)?;
    }
    Ok(())
}

/// The least elements of a plane of at most 1,024 words, at most `most` of them.
pub(crate) fn least_elements(
    alloc: Global,
    plane: &[u64],
    most: u32,
) -> Result<Vec<u32>, AllocError>
    requires few { length plane.now ≤ 1024 }
    ensures { IfOk result (λ elements. elements.items ≡ take most (elements_in_plane plane.now)) }
{
    let mut elements = Vec::new(alloc);
    for e in 0..64 * plane.len() as u32 {
        if elements.len() == most as usize {
            return Ok(elements);
        }
        add_if_set(&mut elements, plane, e)?;
    }
    Ok(elements)
}
