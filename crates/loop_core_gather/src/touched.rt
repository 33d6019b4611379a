//! Which blocks touched which pages.

ghost use Rattle.std.specs.{Prelude.{◌≡◌, ◌<◌, ◌≤◌, map, length, IfOk}, List.{All}};
ghost use Rattle.shadow_marks.specs.Standing.{words_for};
ghost use Rattle.loop_core_block.specs.Shown.{shown};
ghost use Rattle.loop_core_gather.specs.Touched.{MarksPage, MarksPages, AreMarked};

use loop_core_block::Block;
use std::alloc::{AllocError, Global};

/// Marks a page by a bit, 0 to 63, where there is such a page.
fn mark(touched: &mut [u64], page: u32, bit: u32)
    requires { bit < 64 }
    ensures { MarksPage touched.old touched.new page bit }
{
    if (page as usize) < touched.len() {
        touched[page as usize] |= 1 << bit;
    }
}

/// Marks the pages of a block by a bit, 0 to 63.
fn mark_pages(touched: &mut [u64], block: &Block, bit: u32)
    requires { bit < 64 }
    ensures { MarksPages touched.old touched.new (shown block.now).copy.pages bit }
{
    for k in 0..block.pages() {
        if let Some(page) = block.page(k) {
            mark(touched, page, bit);
        }
    }
}

/// Marks the pages of the blocks at these places, each block's by a bit of its own.
fn mark_all(touched: &mut [u64], blocks: &[Block], places: &[usize])
    requires places { All (λ place. place < length blocks.now) places.now }
    requires few { length places.now ≤ 64 }
    ensures count { length touched.new ≡ length touched.old }
    ensures marked { AreMarked (map shown blocks.now) places.now (length places.now) touched.new }
{
    for (i, place) in places.iter().enumerate() {
        mark_pages(touched, &blocks[*place], i as u32);
    }
}

/// A word for each page of n elements: a bit for each of the blocks at these places, in order, that touched it.
pub(crate) fn touched_pages(
    alloc: Global,
    elements: u32,
    blocks: &[Block],
    places: &[usize],
) -> Result<Vec<u64>, AllocError>
    requires places { All (λ place. place < length blocks.now) places.now }
    requires few { length places.now ≤ 64 }
    ensures pages { IfOk result (λ touched. length touched.items ≡ words_for elements) }
    ensures marked { IfOk result (λ touched. AreMarked (map shown blocks.now) places.now (length places.now)
        touched.items) }
{
    let mut touched = vec![in alloc; 0u64; (elements as usize + 63) / 64]?;
    mark_all(touched.as_mut_slice(), blocks, places);
    Ok(touched)
}
