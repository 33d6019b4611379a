//! The outcome of a loop, by its gathered blocks.

ghost use Rattle.std.specs.Prelude.{◌≡◌, ◌<◌, length, slice_index, IfOk};
ghost use Rattle.loop_core_gather.specs.Pages.{IsPageOf, AreLeft};

use crate::kept::committed;
use crate::merged::{is_reduction, reduced_in_page};
use crate::order::PLACES;
use crate::pages::{PAGE_WORDS, overwrite_in_turn, page_by_elements, page_of};
use crate::sharing::{left_in_threads, left_in_turn, touched_numbers};
use crate::storing::LeftPage;
use arrayvec::ArrayVec;
use loop_core_block::Block;
use loop_core_model::Verdict;
use shadow_marks::Planes;
use std::alloc::{AllocError, Global};
use std::marker::Model;
use std::thread::Threads;

/// Blocks of a loop, gathered: the loop's verdict, and after a pass what it answers and leaves. In contracts it is
/// the outcome of a pass, and the start words.
#[derive(Drop)]
pub struct Gathered<'a> {
    pub(crate) verdict: Verdict,
    pub(crate) answer: u32,
    pub(crate) start: &'a [u64],
    pub(crate) blocks: Vec<Block<'a>>,
    /// The places of the blocks that count, in order.
    pub(crate) counting: ArrayVec<usize, PLACES>,
    /// The planes of those blocks, merged.
    pub(crate) planes: Planes,
    /// A word for each page of 64 elements: a bit for each of those blocks that touched it.
    pub(crate) touched: Vec<u64>,
}

impl<'a> Model for Gathered<'a> {
    ghost use Rattle.std.specs.Prelude.{map, length};
    ghost use Rattle.loop_core_block.specs.Shown.{shown};
    ghost use Rattle.loop_core_gather.specs.Held.{chosen, left_words, AreHeld, GatheredOf};

    ghost Value = { GatheredOf };

    ghost view = { λ g. record {
      verdict = g.verdict;
      answer = g.answer;
      words = left_words g.planes (chosen g.counting.items (map shown g.blocks.items)) g.start.now;
      start = g.start.now;
    } };

    ghost invariant = { λ g. AreHeld (length g.start.now) (map shown g.blocks.items) g.counting.items g.planes
        g.touched.items };
}

impl<'a> Gathered<'a> {
    /// The verdict on the loop: `Parallel` where it passes, else `Conflict`.
    pub fn verdict(&self) -> Verdict
        ensures { result ≡ self.now.verdict }
    {
        self.verdict
    }

    /// What the loop answers after a pass: how many iterations count.
    pub fn answer(&self) -> u32
        ensures { result ≡ self.now.answer }
    {
        self.answer
    }

    /// The number of elements, at most 65,536.
    pub fn elements(&self) -> u32
        ensures { result ≡ length self.now.words }
    {
        self.start.len() as u32
    }

    /// What the loop leaves at an element after a pass. The element is in range.
    pub fn element(&self, e: u32) -> u64
        requires { e < length self.now.words }
        ensures { result ≡ slice_index self.now.words e }
    {
        let reduced = is_reduction(&self.planes, e);
        let touched = self.touched[e as usize / 64];
        let word = self.start[e as usize];
        committed(&self.blocks, &self.counting, touched, e, reduced, word)
    }

    /// What the loop leaves at the elements of a page after a pass, and 0 past the last: worked out block after block
    /// where no element of it was reduced, and else element after element.
    pub(crate) fn page(&self, page: u32) -> [u64; PAGE_WORDS]
        ensures { IsPageOf self.now.words page result }
    {
        if page as usize >= self.touched.len() {
            return page_by_elements(self, page);
        }
        if reduced_in_page(&self.planes.operators, page) != 0 {
            return page_by_elements(self, page);
        }
        let mut own = page_of(self.start, page);
        let touched = self.touched[page as usize];
        let elements = self.start.len() as u32;
        overwrite_in_turn(
            &mut own,
            page,
            elements,
            touched,
            &self.blocks,
            &self.counting,
        );
        own
    }

    /// What the loop leaves after a pass, at the pages that were touched, in order. At the elements of all others the
    /// start words are left.
    pub fn left_pages(&self, alloc: Global) -> Result<Vec<LeftPage>, AllocError>
        ensures { IfOk result (λ pages. AreLeft self.now.start self.now.words pages.items) }
    {
        let numbers = touched_numbers(alloc, &self.touched)?;
        left_in_turn(alloc, self, &numbers)
    }

    /// What `left_pages` returns, worked out by several threads if enough pages were touched.
    pub fn left_pages_in_threads<R: Threads + Sync>(
        &self,
        rt: &R,
        alloc: Global,
    ) -> Result<Vec<LeftPage>, AllocError>
        ensures { IfOk result (λ pages. AreLeft self.now.start self.now.words pages.items) }
    {
        let numbers = touched_numbers(alloc, &self.touched)?;
        left_in_threads(rt, alloc, self, &numbers)
    }
}
