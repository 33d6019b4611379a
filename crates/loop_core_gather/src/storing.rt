//! What a pass leaves, stored in maps page by page.

ghost use Rattle.std.specs.Prelude.{◌≡◌, ℕ, List};
ghost use Rattle.loop_core_gather.specs.Pages.{SetsPage, AreLeft};

use crate::pages::PAGE_WORDS;
use array_maps::Maps;

/// A page of 64 elements, and what a pass leaves there.
#[derive(Clone, Copy)]
pub struct LeftPage {
    /// Its number: its first element is 64 times that.
    pub number: u32,
    /// The words of its elements, and 0 past the last.
    pub words: [u64; PAGE_WORDS],
}

/// Stores the words of a page, where there is such a page.
fn store_page(maps: &mut Maps, page: &LeftPage)
    ensures sizes { maps.new.sizes ≡ maps.old.sizes }
    ensures words { SetsPage maps.old.words maps.new.words page.now }
{
    let elements = maps.words().len();
    let first = page.number as usize * PAGE_WORDS;
    if first < elements {
        let count = (elements - first).min(PAGE_WORDS);
        maps.store_run(first as u32, &page.words[..count]);
    }
}

/// Stores the pages that a pass leaves in maps that have its start words: then they have all that it leaves.
pub fn store_pages(maps: &mut Maps, pages: &[LeftPage])
    ensures { (left : List ℕ) → AreLeft maps.old.words left pages.now → maps.new ≡ record {
      sizes = maps.old.sizes;
      words = left;
    } }
{
    for page in pages {
        store_page(maps, page);
    }
}
