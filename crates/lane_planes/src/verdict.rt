//! The plane of elements that conflict, and the verdict on them.

ghost use Rattle.std.specs.{Prelude.{◌≡◌, ◌≤◌, ℕ, List, length, IfOk}, List.{filter, range_with_len}};
ghost use Rattle.array_maps.specs.MapList.{AreWords};
ghost use Rattle.loop_core_model.specs.Marks.{Visit, marks_of, marked_conflict};
ghost use Rattle.loop_core_model.specs.Planes.{elements_in_plane, plane_verdict};
ghost use Rattle.shadow_marks.specs.Standing.{StandFor, test_of};
ghost use Rattle.lane_planes.specs.Merged.{StandForSome};

use crate::counting::{count_bits, first_bit};
use crate::touching::conflicts_touched;
use array_maps::are_words;
use loop_core_model::Verdict;
use shadow_marks::Planes;
use std::alloc::{AllocError, Global};

/// The lanes of a vector.
const LANES: usize = 8;

/// The plane of elements that conflict, of planes for at most 65,536 elements. It fails only for want of memory.
pub fn conflict_plane(alloc: Global, planes: &Planes) -> Result<Vec<u64>, AllocError>
    requires stand { StandForSome planes.now }
    requires few { planes.now.elements ≤ 65536 }
    ensures few { IfOk result (λ plane. length plane.items ≤ 1024) }
    ensures words { IfOk result (λ plane. AreWords plane.items) }
    ensures elements { IfOk result (λ plane. (visits : ℕ → List Visit) → StandFor planes.now visits
        → elements_in_plane plane.items ≡ filter (λ e. marked_conflict (test_of planes.now.tested)
        (marks_of (visits e))) (range_with_len 0 planes.now.elements)) }
{
    let mut plane = vec![in alloc; 0u64; (planes.elements as usize + 63) / 64]?;
    conflicts_touched::<LANES>(planes, plane.as_mut_slice());
    are_words(plane.as_slice());
    Ok(plane)
}

/// The verdict on a loop of which these elements conflict, in a plane of at most 1,024 words.
pub fn verdict_of(plane: &[u64]) -> Verdict
    requires { length plane.now ≤ 1024 }
    ensures { result ≡ plane_verdict plane.now }
{
    match first_bit::<LANES>(plane) {
        Some(least) => Verdict::Conflict {
            count: count_bits::<LANES>(plane),
            least,
        },
        None => Verdict::Parallel,
    }
}
