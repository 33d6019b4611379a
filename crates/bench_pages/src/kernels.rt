//! Lane kernels on planes of 65,536 elements.

use lane_planes::{conflicts, count_bits, merge};
use loop_core_model::Test;
use shadow_marks::Planes;
use std::alloc::{AllocError, Global};

/// Lanes of the kernels.
const LANES: usize = 8;

/// The elements of the planes.
const ELEMENTS: u32 = 65536;

/// Words of a plane.
const WORDS: usize = 1024;

/// Merges planes into others so often, and returns how many elements then have a plain access: none.
pub(crate) fn merge_often(alloc: Global, test: Test, rounds: u32) -> Result<u32, AllocError> {
    let mut mine = Planes::try_new(alloc, ELEMENTS, test)?;
    let theirs = Planes::try_new(alloc, ELEMENTS, test)?;
    for _ in 0..rounds {
        merge::<LANES>(&mut mine, &theirs);
    }
    Ok(if mine.plain.len() == WORDS {
        count_bits::<LANES>(&mine.plain)
    } else {
        0
    })
}

/// Finds the conflicts of planes so often, and then returns how many there are: none.
pub(crate) fn judge_often(alloc: Global, test: Test, rounds: u32) -> Result<u32, AllocError> {
    let planes = Planes::try_new(alloc, ELEMENTS, test)?;
    let mut plane = vec![in alloc; 0u64; WORDS]?;
    for _ in 0..rounds {
        conflicts::<LANES>(&planes, plane.as_mut_slice());
    }
    Ok(if plane.len() == WORDS {
        count_bits::<LANES>(&plane)
    } else {
        0
    })
}
