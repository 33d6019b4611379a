//! Pages after a pass, worked out by one thread or several.

ghost use Rattle.std.specs.{Prelude.{◌≤◌, length, IfOk}, List.{AllZip}};
ghost use Rattle.loop_core_gather.specs.Pages.{IsLeftAt, HaveAllTouched};

use crate::gathered::Gathered;
use crate::storing::LeftPage;
use rayon::prelude::*;
use std::alloc::{AllocError, Global};
use std::thread::Threads;

/// How many pages a thread works out at least: to start it and wait for it takes as long as some hundred of them.
const LEAST_SHARE: usize = 256;

/// The numbers of the pages that were touched, in order: of a word for each page, those whose word isn't 0.
pub(crate) fn touched_numbers(alloc: Global, touched: &[u64]) -> Result<Vec<u32>, AllocError>
    requires { length touched.now ≤ 1024 }
    ensures { IfOk result (λ pages. HaveAllTouched touched.now pages.items) }
{
    let mut pages = Vec::new(alloc);
    for (page, word) in touched.iter().enumerate() {
        if *word != 0 {
            pages.push(page as u32)?;
        }
    }
    Ok(pages)
}

/// A page, and what a pass leaves there.
fn left_page(gathered: &Gathered, number: u32) -> LeftPage
    ensures { IsLeftAt gathered.now.words number result }
{
    LeftPage {
        number,
        words: gathered.page(number),
    }
}

/// The pages of these numbers, in order, and what a pass leaves there.
pub(crate) fn left_in_turn(
    alloc: Global,
    gathered: &Gathered,
    numbers: &[u32],
) -> Result<Vec<LeftPage>, AllocError>
    ensures { IfOk result (λ pages. AllZip (IsLeftAt gathered.now.words) numbers.now pages.items) }
{
    let mut pages = Vec::with_capacity(alloc, numbers.len())?;
    for number in numbers {
        pages.push(left_page(gathered, *number))?;
    }
    Ok(pages)
}

/// The pages of these numbers, as `left_in_turn` returns them, worked out by several threads where two of them have
/// their least share: each page by one of them.
pub(crate) fn left_in_threads<R: Threads + Sync>(
    rt: &R,
    alloc: Global,
    gathered: &Gathered,
    numbers: &[u32],
) -> Result<Vec<LeftPage>, AllocError>
    ensures { IfOk result (λ pages. AllZip (IsLeftAt gathered.now.words) numbers.now pages.items) }
{
    numbers
        .par_iter()
        .with_min_len(LEAST_SHARE)
        .map(
            |number: &u32| -> LeftPage
                ensures { IsLeftAt gathered.entry.now.words number.now result }
            { left_page(gathered, *number) },
        )
        .collect(rt, alloc)
}
